ghost use Rattle.std.specs.Prelude.{◌≡◌, List, None};
ghost use Rattle.zb_types.specs.declared.lines.Outcome.{Outcome};
ghost use Rattle.zb_given.specs.Given.{FitGiven, Given};
ghost use Rattle.zb_client.specs.Hearing.{takes_call};
ghost use Rattle.zb_client.specs.Seen.{SeenClient};
ghost use Rattle.zb_line_laws.specs.Calls.{FitsAfter, HasItsCalls};

/// The first queued call is taken: what that tells fits, and the client has its calls then.
pub fn taken_calls_fit()
    ensures { (given : Given) (lines : List Outcome) (c : SeenClient)
        → FitGiven given lines → HasItsCalls given lines c → c.task ≡ None
        → FitsAfter given lines (takes_call c) }
{}
