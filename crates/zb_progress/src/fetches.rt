ghost use Rattle.std.specs.Prelude.{◌≡◌, ◌<◌, ℕ, None};
ghost use Rattle.zb_types.specs.declared.ids.Ptr.{Ptr};
ghost use Rattle.zb_types.specs.declared.requests.Response.{Response};
ghost use Rattle.zb_types.specs.Tree.{Tree};
ghost use Rattle.zb_stripe.specs.Reading.{Reading, asked};
ghost use Rattle.zb_stripe_laws.specs.ReadAtWork.{AnswersFrom};
ghost use Rattle.zb_basis.specs.declared.basis.Basis.{Basis};
ghost use Rattle.zb_work.specs.declared.work.Step.TheVariants as step;
ghost use Rattle.zb_work.specs.Steps.{step_of};
ghost use Rattle.zb_client.specs.Seen.{SeenClient};
ghost use Rattle.zb_client.specs.Hearing.{HearsFetch};
ghost use Rattle.zb_client.specs.Telling.{Heard};
ghost use Rattle.zb_client_laws.specs.Around.{Around, IsAround};
ghost use Rattle.zb_client_laws.specs.Known.{IsKnown};
ghost use Rattle.zb_client_laws.specs.Sound.{ClientIsSound};
ghost use Rattle.zb_progress.specs.Left.{steps_left};

/// A fetch that is answered from what the servers have leaves fewer steps: its bytes come, since what is held isn't gone, so
/// that nothing is looked up anew.
pub fn fetches_leave_fewer_steps()
    ensures { (slots : ℕ) (w : Around) (seen : Tree) (c : SeenClient) (basis : Basis) (at : ℕ) (ptr : Ptr) (plan : Reading) (response : Response) (serving : ℕ) (heard : Heard)
        → IsAround slots w → IsKnown c → ClientIsSound w seen c → step_of c.task ≡ step.Fetch basis at ptr plan
        → AnswersFrom w.st.maps None None (asked plan) response → HearsFetch c (step.Fetch basis at ptr plan) response serving heard
        → steps_left w.z w.tables heard.client < steps_left w.z w.tables c }
{}
