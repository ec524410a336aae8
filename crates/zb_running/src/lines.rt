ghost use Rattle.std.specs.Prelude.{◌≡◌, ◌≤◌, ◌-◌, ◌++◌, ℕ, Bool, List, []};
ghost use Rattle.zb_types.specs.declared.calls.Call.{Call};
ghost use Rattle.zb_types.specs.declared.geometry.Geometry.{Geometry};
ghost use Rattle.zb_types.specs.declared.lines.Line.{Line};
ghost use Rattle.zb_types.specs.declared.lines.Outcome.{Outcome};
ghost use Rattle.zb_given.specs.Given.{Given, with_item};
ghost use Rattle.zb_given.specs.Loops.{IsPast};
ghost use Rattle.zb_course.specs.Seen.{SeenCourse};
ghost use Rattle.zb_running.specs.Lines.{IsAtCall};
ghost use Rattle.zb_running.specs.Reports.{HasReport, reads_of};
ghost use Rattle.zb_running.specs.Telling.{GivesMore, HasTold, SomeHasTold};
ghost use Rattle.zb_types.specs.declared.lines.Line.TheVariants.{Call as CallLine};
ghost use Rattle.std.specs.Prelude.{true, length};

/// A program that gave a script to a system so far, and then the next call of it, stays at this call whichever client makes a
/// step; and between two lines it stays so.
pub fn steps_keep_the_line()
    ensures given { (geo : Geometry) (given : Given) (lines : List Outcome) (old new : SeenCourse) (script : List Line) (plus : Bool) (client : ℕ) (call : Call)
        (r : HasReport geo given lines old) → 1 ≤ client → client ≤ length old.nodes.clients → given.finishes ≡ [] → IsPast script given lines
        → (g : GivesMore r (with_item given (CallLine true client call) (length lines)) new) → IsAtCall script plus client call g.report }
    ensures step { (geo : Geometry) (given : Given) (lines : List Outcome) (old new : SeenCourse) (script : List Line) (plus : Bool) (client : ℕ) (call : Call)
        (r : HasReport geo given lines old) → 1 ≤ client → IsAtCall script plus client call r → (s : SomeHasTold r new client) → IsAtCall script plus client call s.told.report }
    ensures between { (geo : Geometry) (given : Given) (lines : List Outcome) (old new : SeenCourse) (script : List Line) (who : ℕ)
        (r : HasReport geo given lines old) → IsPast script given lines → (t : HasTold r new who) → IsPast script given (lines ++ t.more) }
{}
