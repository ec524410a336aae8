ghost use Rattle.std.specs.Prelude.{◌≡◌, ℕ, None};
ghost use Rattle.zb_types.specs.declared.ids.Ptr.{Ptr};
ghost use Rattle.zb_types.specs.declared.requests.Response.{Response};
ghost use Rattle.zb_types.specs.Tree.{Tree};
ghost use Rattle.zb_stripe.specs.Reading.{Answers, Reading, asked};
ghost use Rattle.zb_stripe_laws.specs.ReadAtWork.{AnswersFrom};
ghost use Rattle.zb_basis.specs.declared.basis.Basis.{Basis};
ghost use Rattle.zb_work.specs.declared.work.Step.TheVariants as step;
ghost use Rattle.zb_work.specs.Steps.{step_of};
ghost use Rattle.zb_client.specs.Seen.{SeenClient};
ghost use Rattle.zb_client.specs.Hearing.{HearsFetch};
ghost use Rattle.zb_client.specs.Telling.{Heard};
ghost use Rattle.zb_client_laws.specs.Around.{Around, IsAround};
ghost use Rattle.zb_client_laws.specs.Effects.{TellsRight};
ghost use Rattle.zb_client_laws.specs.Known.{IsKnown};
ghost use Rattle.zb_client_laws.specs.Sound.{ClientIsSound};

/// A fetch that is answered from what the servers have: its response may be heard, leaves the client sound, and tells
/// nothing but the reply of the tree that the read at work was looked up in.
pub fn fetches_are_sound()
    ensures may_answer { (slots : ℕ) (w : Around) (seen : Tree) (c : SeenClient) (basis : Basis) (at : ℕ) (ptr : Ptr) (plan : Reading) (response : Response)
        → IsAround slots w → IsKnown c → ClientIsSound w seen c → step_of c.task ≡ step.Fetch basis at ptr plan
        → AnswersFrom w.st.maps None None (asked plan) response → Answers plan.servers (asked plan) response }
    ensures goes_on { (slots : ℕ) (w : Around) (seen : Tree) (c : SeenClient) (basis : Basis) (at : ℕ) (ptr : Ptr) (plan : Reading) (response : Response) (serving : ℕ) (heard : Heard)
        → IsAround slots w → IsKnown c → ClientIsSound w seen c → step_of c.task ≡ step.Fetch basis at ptr plan
        → AnswersFrom w.st.maps None None (asked plan) response → HearsFetch c (step.Fetch basis at ptr plan) response serving heard
        → ClientIsSound w seen heard.client × TellsRight seen c heard }
{}
