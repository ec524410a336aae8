ghost use Rattle.std.specs.Prelude.{◌≡◌, List, [], ◌∷◌, ℕ};
ghost use Rattle.zb_types.specs.Apply.{reply_to};
ghost use Rattle.zb_types.specs.declared.calls.Reply.{Reply};
ghost use Rattle.zb_types.specs.declared.lines.Outcome.{Outcome};
ghost use Rattle.zb_types.specs.declared.lines.Said.TheVariants as said;
ghost use Rattle.zb_given.specs.Calls.{IsLookedUp, tree_seen};
ghost use Rattle.zb_given.specs.Given.{FitGiven, Given};
ghost use Rattle.zb_basis.specs.declared.calls.Numbered.{Numbered};
ghost use Rattle.zb_client.specs.Seen.{SeenClient};
ghost use Rattle.zb_client.specs.Telling.{answers_read};
ghost use Rattle.zb_work.specs.Fitting.{AimFits};
ghost use Rattle.zb_work.specs.Steps.{aim_of};
ghost use Rattle.zb_line_laws.specs.Calls.{FitsAfter, HasItsCalls, IsCalm};

/// The read at work is answered, with the reply of the tree in which it was looked up: what that tells fits, and the client
/// has its other calls then.
pub fn read_replies_fit()
    ensures { (given : Given) (lines : List Outcome) (c : SeenClient) (read : Numbered) (rest : List Numbered) (at : ℕ) (reply : Reply)
        → FitGiven given lines → HasItsCalls given lines c → IsCalm lines
        → AimFits c.kept c.queue (aim_of c.task) → c.queue ≡ read ∷ rest → c.kept ≡ []
        → IsLookedUp given lines c.client (record { number = read.number; at = at }) read.call
        → reply ≡ reply_to (tree_seen given lines (record { number = read.number; at = at })) read.call
        → FitsAfter given lines (answers_read c (said.Reply reply)) }
{}
