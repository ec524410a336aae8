ghost use Rattle.std.specs.Prelude.{◌≡◌, ◌<◌, ℕ, Some, slice_get};
ghost use Rattle.zb_types.specs.declared.ids.ServerId.{ServerId};
ghost use Rattle.zb_types.specs.declared.requests.Request.{Request};
ghost use Rattle.zb_types.specs.declared.requests.Response.TheVariants as told;
ghost use Rattle.zb_types.specs.declared.requests.StoreFault.TheVariants as fault;
ghost use Rattle.zb_tables.specs.Tables.{Tables};
ghost use Rattle.zb_tables.specs.Taking.{Sizes};
ghost use Rattle.zb_basis.specs.declared.basis.Basis.{Basis};
ghost use Rattle.zb_basis.specs.declared.basis.Formed.{Formed};
ghost use Rattle.zb_work.specs.declared.work.Step.TheVariants as step;
ghost use Rattle.zb_work.specs.Steps.{step_of};
ghost use Rattle.zb_client.specs.Seen.{SeenClient};
ghost use Rattle.zb_client.specs.Hearing.{HearsStore};
ghost use Rattle.zb_client.specs.Telling.{Heard};
ghost use Rattle.zb_client_laws.specs.Known.{IsKnown};
ghost use Rattle.zb_progress.specs.Left.{steps_left};

/// A request that stores what is left of a batch leaves fewer steps: carried out, and refused for want of a slot.
pub fn stores_leave_fewer_steps()
    ensures done { (z : Sizes) (t : Tables) (c : SeenClient) (basis : Basis) (formed : Formed) (asked : ServerId × Request) (heard : Heard)
        → step_of c.task ≡ step.Store basis formed → slice_get formed.plan 0 ≡ Some asked
        → HearsStore c (step.Store basis formed) told.Done heard
        → steps_left z t heard.client < steps_left z t c }
    ensures full { (z : Sizes) (t : Tables) (c : SeenClient) (basis : Basis) (formed : Formed) (free : ℕ) (heard : Heard)
        → IsKnown c → step_of c.task ≡ step.Store basis formed
        → HearsStore c (step.Store basis formed) (told.Refused (fault.NoSlot free)) heard
        → steps_left z t heard.client < steps_left z t c }
{}
