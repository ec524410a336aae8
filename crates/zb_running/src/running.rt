ghost use Rattle.std.specs.Prelude.{◌≡◌, ◌≢◌, ◌≤◌, ◌<◌, ◌-◌, ◌↔◌, ℕ, List, length, IfOk, OnOk, OnErr, None, Some};
ghost use Rattle.zb_types.specs.declared.geometry.Geometry.{Geometry};
ghost use Rattle.zb_types.specs.declared.lines.Kind.TheVariants.{Idle};
ghost use Rattle.zb_types.specs.declared.lines.Outcome.{Outcome};
ghost use Rattle.zb_given.specs.Given.{Given};
ghost use Rattle.zb_ending.specs.Left.{work_left};
ghost use Rattle.zb_nodes.specs.Seen.{kind_at};
ghost use Rattle.zb_course.specs.Seen.{SeenCourse};
ghost use Rattle.zb_course.specs.Steps.{StepIs, holder_of};
ghost use Rattle.zb_course.specs.declared.step.Step.{Step};
ghost use Rattle.zb_running.specs.Reports.{HasReport, IsTelling};
ghost use Rattle.zb_running.specs.Resting.{LeavesRest};
ghost use Rattle.zb_running.specs.Telling.{HasHalted, SomeHasTold, TellsMore, TellsUntil};

use std::alloc::Global;
use zb_course::{Course, Step};
use zb_nodes::Halt;

/// Each step that a client makes leaves all clients fewer steps to take.
pub fn steps_come_nearer()
    ensures { (geo : Geometry) (given : Given) (lines : List Outcome) (old new : SeenCourse) (client : ℕ) (step : Step) → HasReport geo given lines old
        → StepIs old new client step → step ≢ Step.Idle → holder_of step ≡ None → work_left new.nodes < work_left old.nodes }
{}

/// One step of a client, or, where it is blocked, of the client that holds the file manager. It is `Idle` exactly where the
/// client has no work, and never `Blocked`.
///
/// After a halt no line was told, and those of the step may wait.
pub fn step_or_holder(alloc: Global, course: &mut Course, client: u8) -> Result<Step, Halt>
    requires telling { IsTelling course.old }
    requires first { 1 ≤ client }
    requires last { client ≤ length course.old.nodes.clients }
    ensures idle { IfOk result (λ step. (step ≡ Step.Idle) ↔ (kind_at course.old.nodes (client - 1) ≡ Some Idle)) }
    ensures rests { IfOk result (λ step. step ≡ Step.Idle → kind_at course.new.nodes (client - 1) ≡ Some Idle) }
    ensures free { IfOk result (λ step. holder_of step ≡ None) }
    ensures settled { OnOk result (course.new.untold ≡ None) }
    ensures quiet { IfOk result (λ step. step ≢ Step.Answered → course.new.text ≡ course.old.text) }
    ensures less { IfOk result (λ step. step ≢ Step.Idle → work_left course.new.nodes < work_left course.old.nodes) }
    ensures others { LeavesRest course.old.nodes course.new.nodes }
    ensures ok { (geo : Geometry) (given : Given) (lines : List Outcome) (r : HasReport geo given lines course.old) → OnOk result (SomeHasTold r course.new client) }
    ensures err { (geo : Geometry) (given : Given) (lines : List Outcome) → HasReport geo given lines course.old → OnErr result (HasHalted geo given lines course.old course.new) }
{
    match course.step(alloc, client)? {
        Step::Blocked { holder } => course.step(alloc, holder),
        step => Ok(step),
    }
}

/// Steps of a client until it has no work; where it is blocked, the client that holds the file manager makes one. They tell
/// lines behind those that were told, also up to a halt.
pub fn run_client(alloc: Global, course: &mut Course, client: u8) -> Result<(), Halt>
    requires telling { IsTelling course.old }
    requires first { 1 ≤ client }
    requires last { client ≤ length course.old.nodes.clients }
    ensures idle { OnOk result (kind_at course.new.nodes (client - 1) ≡ Some Idle) }
    ensures others { LeavesRest course.old.nodes course.new.nodes }
    ensures ok { (geo : Geometry) (given : Given) (lines : List Outcome) → HasReport geo given lines course.old → OnOk result (TellsMore geo given lines course.old course.new) }
    ensures err { (geo : Geometry) (given : Given) (lines : List Outcome) → HasReport geo given lines course.old → OnErr result (TellsUntil geo given lines course.old course.new) }
{
    'steps: while step_or_holder(alloc, course, client)? != Step::Idle {}
    Ok(())
}
