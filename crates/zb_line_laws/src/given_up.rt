ghost use Rattle.std.specs.Prelude.{◌≡◌, List, ◌∷◌, ℕ, Some, false};
ghost use Rattle.zb_types.specs.Apply.{is_update};
ghost use Rattle.zb_types.specs.declared.nodes.Cause.{Cause};
ghost use Rattle.zb_types.specs.declared.lines.Outcome.{Outcome};
ghost use Rattle.zb_given.specs.Given.{FitGiven, Given};
ghost use Rattle.zb_basis.specs.declared.calls.Numbered.{Numbered};
ghost use Rattle.zb_client.specs.Seen.{SeenClient};
ghost use Rattle.zb_client.specs.Telling.{gives_up};
ghost use Rattle.zb_work.specs.declared.work.Aim.TheVariants.{Finish, Read, Update};
ghost use Rattle.zb_work.specs.declared.work.Task.{Task};
ghost use Rattle.zb_line_laws.specs.Calls.{FitsAfter, HasItsCalls};

/// Work that can't go on is given up: an update stays kept, a read fails, and at a finish all kept calls end. What that tells
/// fits, and the client has its other calls then.
pub fn given_up_calls_fit()
    ensures update { (given : Given) (lines : List Outcome) (c : SeenClient) (task : Task) (number : ℕ) (cause : Cause)
        → FitGiven given lines → HasItsCalls given lines c → c.task ≡ Some task → task.aim ≡ Update number
        → FitsAfter given lines (gives_up c cause) }
    ensures read { (given : Given) (lines : List Outcome) (c : SeenClient) (task : Task) (read : Numbered) (rest : List Numbered) (cause : Cause)
        → FitGiven given lines → HasItsCalls given lines c → c.task ≡ Some task → task.aim ≡ Read
        → c.queue ≡ read ∷ rest → is_update read.call ≡ false
        → FitsAfter given lines (gives_up c cause) }
    ensures finish { (given : Given) (lines : List Outcome) (c : SeenClient) (task : Task) (cause : Cause)
        → FitGiven given lines → HasItsCalls given lines c → c.task ≡ Some task → task.aim ≡ Finish → c.doubted ≡ 0
        → FitsAfter given lines (gives_up c cause) }
{}
