ghost use Rattle.std.specs.Prelude.{◌≡◌, ◌≤◌, ◌<◌, ◌-◌, ◌++◌, ℕ, suc, true, List, [], length, IsTrue, Some, None};
ghost use Rattle.zb_types.specs.declared.calls.Call.{Call};
ghost use Rattle.zb_types.specs.declared.geometry.Geometry.{Geometry};
ghost use Rattle.zb_types.specs.declared.lines.Kind.TheVariants.{Idle};
ghost use Rattle.zb_types.specs.declared.lines.Line.TheVariants.{Call as CallLine};
ghost use Rattle.zb_types.specs.declared.lines.Outcome.{Outcome};
ghost use Rattle.zb_types.specs.declared.tables.TreeEntry.{TreeEntry};
ghost use Rattle.zb_types.specs.History.{IsLegal};
ghost use Rattle.zb_types.specs.Limits.{within};
ghost use Rattle.zb_types.specs.Tree.{listing};
ghost use Rattle.zb_claims.specs.Points.{Subject, calls, dids, tree_at};
ghost use Rattle.zb_given.specs.Ends.{HaveLastLines, HaveLines};
ghost use Rattle.zb_given.specs.Given.{FitGiven, Given, none_given, script_of, with_finish, with_item};
ghost use Rattle.zb_forming_laws.specs.Resting.{IsShort};
ghost use Rattle.zb_line_laws.specs.Calls.{IsFinishing};
ghost use Rattle.zb_tables.specs.Tables.{Contents, shown_tree};
ghost use Rattle.zb_ledger.specs.Seen.{call_at, count_of};
ghost use Rattle.zb_nodes.specs.Seen.{IsSound, kind_at};
ghost use Rattle.zb_nodes.specs.declared.answers.Halt.{Halt};
ghost use Rattle.zb_finishing.specs.Clients.{AllIdle, AllKeepNone};
ghost use Rattle.zb_course.specs.Seen.{SeenCourse, lines_behind};
ghost use Rattle.zb_course.specs.Sound.{most_calls};
ghost use Rattle.zb_course.specs.Steps.{Finishes, HasHalted as HasHaltedStep, HasWaited, IsFirstCourse, OwnsRest, StepIs, TakesCall, TellsRest};
ghost use Rattle.zb_course.specs.declared.step.Step.{Step};
ghost use Rattle.zb_running.specs.Reports.{HasReport, IsReported};
ghost use Rattle.zb_running.specs.Telling.{GivesMore, HasHalted, HasTold, TellsMore};

/// A new course has an empty report.
pub fn reports_begin()
    ensures { (geo : Geometry) (c : SeenCourse) → IsFirstCourse geo c → HasReport geo none_given [] c }
{}

/// A report stands as it is where a call is given, where a finish begins, and where a client then begins to commit all that it
/// keeps.
pub fn reports_take_calls()
    ensures call { (geo : Geometry) (given : Given) (lines : List Outcome) (old new : SeenCourse) (client : ℕ) (call : Call) (r : HasReport geo given lines old)
        → IsTrue (within 1 geo.clients client) → IsShort call → old.calls < most_calls → TakesCall old new client call
        → GivesMore r (with_item given (CallLine true client call) (length lines)) new }
    ensures finish { (geo : Geometry) (given : Given) (lines : List Outcome) (c : SeenCourse) (r : HasReport geo given lines c)
        → GivesMore r (with_finish given (length lines)) c }
    ensures flush { (geo : Geometry) (given : Given) (lines : List Outcome) (old new : SeenCourse) (client : ℕ) (r : HasReport geo given lines old)
        → 1 ≤ client → client ≤ geo.clients → AllIdle old.nodes → IsFinishing given lines → Finishes old new client → GivesMore r given new }
{}

/// A step of a client tells lines of its own behind the report, or nothing; one that isn't made tells none. Where a step halts,
/// its lines may wait; once they are told, they stand in the report. Whether their text was handed over makes no difference.
pub fn reports_take_steps()
    ensures step { (geo : Geometry) (given : Given) (lines : List Outcome) (old new : SeenCourse) (client : ℕ) (step : Step) (r : HasReport geo given lines old)
        → IsTrue (within 1 geo.clients client) → StepIs old new client step → HasTold r new client }
    ensures waits { (geo : Geometry) (given : Given) (lines : List Outcome) (old new : SeenCourse) (client : ℕ) (r : HasReport geo given lines old)
        → 1 ≤ client → HasWaited old new client → GivesMore r given new }
    ensures halts { (geo : Geometry) (given : Given) (lines : List Outcome) (old new : SeenCourse) (client : ℕ) (why : Halt) (r : HasReport geo given lines old)
        → IsTrue (within 1 geo.clients client) → HasHaltedStep old new client why → HasHalted geo given lines old new }
    ensures prints { (geo : Geometry) (given : Given) (lines : List Outcome) (c : SeenCourse) (r : HasReport geo given lines c) → GivesMore r given (record c { text = [] }) }
    ensures still_prints { (geo : Geometry) (given : Given) (lines : List Outcome) (c : SeenCourse) → IsReported geo given lines c → IsReported geo given lines (record c { text = [] }) }
    ensures none_waits { (geo : Geometry) (given : Given) (lines : List Outcome) (c : SeenCourse) → HasReport geo given lines c → IsReported geo given lines c }
    ensures settles { (geo : Geometry) (given : Given) (lines : List Outcome) (c : SeenCourse) → IsReported geo given lines c → c.untold ≡ None → HasReport geo given lines c }
    ensures rest { (geo : Geometry) (given : Given) (lines : List Outcome) (old new : SeenCourse) (r : IsReported geo given lines old)
        → TellsRest old new → TellsMore geo given lines old new }
{}

/// What a report tells of the course: its nodes are sound, as many clients as the system has, and a next call has a number that
/// no call has; the lines fit what was given, and the history of them is legal.
pub fn reports_show()
    ensures sound { (geo : Geometry) (given : Given) (lines : List Outcome) (c : SeenCourse) → IsReported geo given lines c → IsSound c.nodes }
    ensures clients { (geo : Geometry) (given : Given) (lines : List Outcome) (c : SeenCourse) → IsReported geo given lines c → length c.nodes.clients ≡ geo.clients }
    ensures own { (geo : Geometry) (given : Given) (lines : List Outcome) (c : SeenCourse) → IsReported geo given lines c → c.ledger.clients ≡ geo.clients }
    ensures rest { (geo : Geometry) (given : Given) (lines : List Outcome) (c : SeenCourse) → IsReported geo given lines c → OwnsRest c }
    ensures fits { (geo : Geometry) (given : Given) (lines : List Outcome) (c : SeenCourse) → IsReported geo given lines c → FitGiven given lines }
    ensures places { (geo : Geometry) (given : Given) (lines : List Outcome) (c : SeenCourse) (client : ℕ) → HasReport geo given lines c
        → client ≤ geo.clients → client < length c.ledger.counts }
    ensures fresh { (geo : Geometry) (given : Given) (lines : List Outcome) (c : SeenCourse) (client : ℕ) → HasReport geo given lines c
        → call_at c.ledger.waiting client (suc (count_of c.ledger client)) ≡ None }
    ensures legal { (geo : Geometry) (given : Given) (lines : List Outcome) (c : SeenCourse) → HasReport geo given lines c
        → IsLegal c.ledger.updates c.ledger.answered }
    ensures updates { (geo : Geometry) (given : Given) (lines : List Outcome) (c : SeenCourse) → HasReport geo given lines c
        → c.ledger.updates ≡ dids (script_of given) lines }
{}

/// A client that is idle has a line for each of its calls. Once all are, and none keeps any, each call has its last one; and what
/// the tables list is the tree of the lines.
pub fn reports_end()
    ensures lines { (geo : Geometry) (given : Given) (lines : List Outcome) (c : SeenCourse) (client : ℕ) → HasReport geo given lines c
        → 1 ≤ client → kind_at c.nodes (client - 1) ≡ Some Idle → HaveLines given lines (calls client) }
    ensures last { (geo : Geometry) (given : Given) (lines : List Outcome) (c : SeenCourse) → HasReport geo given lines c → AllIdle c.nodes → AllKeepNone c.nodes
        → (subject : Subject) → HaveLastLines given lines subject }
    ensures tree { (geo : Geometry) (given : Given) (lines : List Outcome) (c : SeenCourse) (entries : List TreeEntry) → HasReport geo given lines c
        → ((contents : Contents) → entries ≡ listing (shown_tree c.nodes.manager.sizes.block c.nodes.manager.tables contents))
        → entries ≡ listing (tree_at (script_of given) lines) }
{}
