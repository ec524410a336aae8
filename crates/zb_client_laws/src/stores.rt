ghost use Rattle.std.specs.Prelude.{◌≡◌, ℕ, Some, slice_get};
ghost use Rattle.zb_types.specs.declared.ids.ServerId.{ServerId};
ghost use Rattle.zb_types.specs.declared.requests.Request.{Request};
ghost use Rattle.zb_types.specs.declared.requests.Response.TheVariants as told;
ghost use Rattle.zb_types.specs.declared.requests.StoreFault.TheVariants as fault;
ghost use Rattle.zb_types.specs.declared.nodes.Cause.TheVariants.{NoSpace};
ghost use Rattle.zb_types.specs.declared.nodes.Class.TheVariants.{Client};
ghost use Rattle.zb_types.specs.Tree.{Tree};
ghost use Rattle.zb_stripe.specs.declared.flush.Flush.{Flush};
ghost use Rattle.zb_sound.specs.Delivering.{FlushWorks, allowed};
ghost use Rattle.zb_sound.specs.LastFlush.{FindsItsPlace};
ghost use Rattle.zb_basis.specs.declared.basis.Basis.{Basis};
ghost use Rattle.zb_basis.specs.declared.basis.Formed.{Formed};
ghost use Rattle.zb_basis.specs.Forming.{writers_out};
ghost use Rattle.zb_work.specs.declared.work.Step.TheVariants as step;
ghost use Rattle.zb_work.specs.Steps.{first_members, step_of};
ghost use Rattle.zb_client.specs.Seen.{SeenClient};
ghost use Rattle.zb_client.specs.Hearing.{HearsStore};
ghost use Rattle.zb_client.specs.Telling.{Heard};
ghost use Rattle.zb_client_laws.specs.Around.{Around, IsAround};
ghost use Rattle.zb_client_laws.specs.Effects.{GivesUp, TellsNothing, after_request};
ghost use Rattle.zb_client_laws.specs.Known.{IsKnown};
ghost use Rattle.zb_client_laws.specs.Sound.{ClientIsSound};

/// A request that stores what is left of a batch: it is one of a flush at work of the client's log, and finds its place;
/// carried out, it leaves what servers and tables stand for, and the client sound; refused for want of a slot, it leaves the
/// client sound, with its work given up.
pub fn stores_are_sound()
    ensures works { (slots : ℕ) (w : Around) (seen : Tree) (c : SeenClient) (basis : Basis) (formed : Formed) (asked : ServerId × Request)
        → IsAround slots w → ClientIsSound w seen c → step_of c.task ≡ step.Store basis formed → slice_get formed.plan 0 ≡ Some asked
        → (flush : Flush) × (flush.log ≡ c.log.log)
        × FlushWorks w.z w.contents w.st w.tables.held (allowed w.tables.members) (writers_out (first_members basis.found).state) Client flush formed.plan }
    ensures finds { (slots : ℕ) (w : Around) (seen : Tree) (c : SeenClient) (basis : Basis) (formed : Formed) (asked : ServerId × Request)
        → IsAround slots w → ClientIsSound w seen c → step_of c.task ≡ step.Store basis formed → slice_get formed.plan 0 ≡ Some asked
        → FindsItsPlace asked.1 (w.st.maps asked.0) }
    ensures done { (slots : ℕ) (w : Around) (seen : Tree) (c : SeenClient) (basis : Basis) (formed : Formed) (asked : ServerId × Request) (heard : Heard)
        → IsAround slots w → IsKnown c → ClientIsSound w seen c → step_of c.task ≡ step.Store basis formed → slice_get formed.plan 0 ≡ Some asked
        → HearsStore c (step.Store basis formed) told.Done heard
        → IsAround slots (after_request w asked) × ClientIsSound (after_request w asked) seen heard.client × TellsNothing c heard }
    ensures full { (slots : ℕ) (w : Around) (seen : Tree) (c : SeenClient) (basis : Basis) (formed : Formed) (asked : ServerId × Request) (free : ℕ) (heard : Heard)
        → IsAround slots w → IsKnown c → ClientIsSound w seen c → step_of c.task ≡ step.Store basis formed → slice_get formed.plan 0 ≡ Some asked
        → HearsStore c (step.Store basis formed) (told.Refused (fault.NoSlot free)) heard
        → ClientIsSound w seen heard.client × GivesUp c (NoSpace asked.0) heard }
{}
