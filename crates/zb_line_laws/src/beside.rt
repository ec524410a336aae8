ghost use Rattle.std.specs.Prelude.{◌≡◌, List, [], ◌++◌, ℕ, None, true, false};
ghost use Rattle.std.specs.List.{list_any};
ghost use Rattle.zb_types.specs.declared.calls.Call.{Call};
ghost use Rattle.zb_types.specs.declared.lines.Line.{Line};
ghost use Rattle.zb_types.specs.declared.lines.Line.TheVariants.{Call as CallLine};
ghost use Rattle.zb_types.specs.declared.lines.Outcome.{Outcome};
ghost use Rattle.zb_claims.specs.Points.{is_of_client};
ghost use Rattle.zb_given.specs.Given.{Given, call_by, with_finish, with_item};
ghost use Rattle.zb_client.specs.Seen.{SeenClient, unready};
ghost use Rattle.zb_client_laws.specs.Effects.{SameCalls};
ghost use Rattle.zb_work.specs.declared.work.Aim.TheVariants.{Finish};
ghost use Rattle.zb_work.specs.Steps.{new_task};
ghost use Rattle.zb_line_laws.specs.Calls.{HasItsCalls, IsFinishing, queues};

/// A client has its calls where one is given to it, where others are given theirs, where a finish begins, behind the lines
/// of others, and at a step that leaves them.
pub fn calls_stay_with_clients()
    ensures own { (given : Given) (lines : List Outcome) (call : Call) (at : ℕ) (c : SeenClient)
        → HasItsCalls given lines c → HasItsCalls (with_item given (CallLine true c.client call) at) lines (queues given c call) }
    ensures others { (given : Given) (lines : List Outcome) (line : Line) (at : ℕ) (c : SeenClient)
        → call_by c.client line ≡ [] → HasItsCalls given lines c → HasItsCalls (with_item given line at) lines c }
    ensures finish { (given : Given) (lines : List Outcome) (at : ℕ) (c : SeenClient)
        → HasItsCalls given lines c → HasItsCalls (with_finish given at) lines c }
    ensures finishes { (given : Given) (lines : List Outcome) (c : SeenClient)
        → c.task ≡ None → IsFinishing given lines → HasItsCalls given lines c → HasItsCalls given lines (record (unready c) { task = new_task Finish }) }
    ensures quiet { (given : Given) (lines : List Outcome) (c after : SeenClient)
        → SameCalls c after → HasItsCalls given lines c → HasItsCalls given lines after }
    ensures beside { (given : Given) (lines more : List Outcome) (c : SeenClient)
        → list_any (is_of_client c.client) more ≡ false → HasItsCalls given lines c → HasItsCalls given (lines ++ more) c }
{}
