ghost use Rattle.std.specs.Prelude.{◌≡◌, ◌≤◌, ◌<◌, ◌-◌, ◌++◌, ℕ, suc, true, List, [], length, Some, None};
ghost use Rattle.zb_types.specs.declared.calls.Call.{Call};
ghost use Rattle.zb_types.specs.declared.geometry.Geometry.{Geometry};
ghost use Rattle.zb_types.specs.declared.lines.Kind.TheVariants.{Idle};
ghost use Rattle.zb_types.specs.declared.lines.Line.TheVariants.{Call as CallLine};
ghost use Rattle.zb_types.specs.declared.lines.Outcome.{Outcome};
ghost use Rattle.zb_given.specs.Given.{Given, none_given, with_finish, with_item};
ghost use Rattle.zb_forming_laws.specs.Resting.{IsShort};
ghost use Rattle.zb_ledger.specs.Seen.{call_at, count_of};
ghost use Rattle.zb_line_laws.specs.Calls.{IsFinishing, lines_in};
ghost use Rattle.zb_nodes.specs.Seen.{IsSound, kind_at};
ghost use Rattle.zb_course.specs.Seen.{SeenCourse, lines_behind};
ghost use Rattle.zb_course.specs.Steps.{Finishes, HasAnswered, HasMoved, HasWaited, IsBehind, IsFirstCourse, OwnsRest, TakesCall, TellsRest};
ghost use Rattle.zb_course.specs.Sound.{Goes, GoesWith, IsSettled, IsSoundCourse, most_calls};

/// A new course is settled: nothing was given, and nothing is told.
pub fn courses_begin()
    ensures { (geo : Geometry) (c : SeenCourse) → IsFirstCourse geo c → IsSettled none_given [] c }
{}

/// A settled course stays so where a call is given, where a finish begins, and where a client then begins to commit all that
/// it keeps. A next call has a number that no call has.
pub fn courses_take_calls()
    ensures call { (given : Given) (lines : List Outcome) (old new : SeenCourse) (client : ℕ) (call : Call) (s : IsSettled given lines old)
        → 1 ≤ client → client ≤ length old.nodes.clients → IsShort call → old.calls < most_calls → TakesCall old new client call
        → GoesWith s (with_item given (CallLine true client call) (length lines)) new }
    ensures fresh { (given : Given) (lines : List Outcome) (c : SeenCourse) (client : ℕ) → IsSettled given lines c
        → call_at c.ledger.waiting client (suc (count_of c.ledger client)) ≡ None }
    ensures places { (given : Given) (lines : List Outcome) (c : SeenCourse) (client : ℕ) → IsSettled given lines c
        → client ≤ c.ledger.clients → client < length c.ledger.counts }
    ensures finish { (given : Given) (lines : List Outcome) (c : SeenCourse) (s : IsSettled given lines c)
        → GoesWith s (with_finish given (length lines)) c }
    ensures finishes { (given : Given) (lines : List Outcome) (old new : SeenCourse) (client : ℕ) (s : IsSettled given lines old)
        → 1 ≤ client → kind_at old.nodes (client - 1) ≡ Some Idle → IsFinishing given lines → Finishes old new client → GoesWith s given new }
{}

/// So it does where a step of a client was made that told lines or nothing, and where none was made. Where memory was wanting
/// for the text of its lines they wait, and the course is sound.
pub fn courses_take_steps()
    ensures moved { (given : Given) (lines : List Outcome) (old new : SeenCourse) (client : ℕ) (s : IsSettled given lines old)
        → 1 ≤ client → client ≤ old.ledger.clients → HasMoved old new client → Goes s new client [] }
    ensures answered { (given : Given) (lines : List Outcome) (old new : SeenCourse) (client : ℕ) (s : IsSettled given lines old)
        → 1 ≤ client → client ≤ old.ledger.clients → (a : HasAnswered old new client) → Goes s new client (lines_in a.told) }
    ensures waited { (given : Given) (lines : List Outcome) (old new : SeenCourse) (client : ℕ) (s : IsSettled given lines old)
        → 1 ≤ client → HasWaited old new client → Goes s new client [] }
    ensures behind { (given : Given) (lines : List Outcome) (old new : SeenCourse) (client : ℕ) (s : IsSettled given lines old)
        → 1 ≤ client → client ≤ old.ledger.clients → IsBehind old new client → IsSoundCourse given lines new }
{}

/// A sound course is settled once the lines that wait are told. Its nodes are sound, and lines that wait are one client's.
pub fn courses_tell_their_rest()
    ensures rest { (given : Given) (lines : List Outcome) (old new : SeenCourse)
        → IsSoundCourse given lines old → TellsRest old new → IsSettled given (lines ++ lines_behind old.untold) new }
    ensures own { (given : Given) (lines : List Outcome) (c : SeenCourse) → IsSoundCourse given lines c → OwnsRest c }
    ensures sound { (given : Given) (lines : List Outcome) (c : SeenCourse) → IsSoundCourse given lines c → IsSound c.nodes }
{}
