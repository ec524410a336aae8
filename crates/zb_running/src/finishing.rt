ghost use Rattle.std.specs.Prelude.{◌≡◌, ◌≤◌, ◌-◌, ◌<◌, List, length, not, IfOk, OnOk, OnErr, ℕ};
ghost use Rattle.zb_types.specs.declared.geometry.Geometry.{Geometry};
ghost use Rattle.zb_types.specs.declared.lines.Outcome.{Outcome};
ghost use Rattle.zb_given.specs.Given.{Given, with_finish};
ghost use Rattle.zb_line_laws.specs.Calls.{IsFinishing};
ghost use Rattle.zb_finishing.specs.Clients.{AllIdle, AllKeepNone, IsIdleAt, KeepsNoneAt};
ghost use Rattle.zb_running.specs.Reports.{HasReport, IsFinishingTelling, IsTelling};
ghost use Rattle.zb_running.specs.Resting.{LeavesRest};
ghost use Rattle.zb_running.specs.Telling.{TellsMore, TellsUntil};

use crate::running::run_client;
use std::alloc::Global;
use zb_course::Course;
use zb_nodes::Halt;

// Runs each client until it has no work.
fn run_all(alloc: Global, course: &mut Course, clients: u8) -> Result<(), Halt>
    requires telling { IsTelling course.old }
    requires clients { clients ≡ length course.old.nodes.clients }
    ensures idle { OnOk result (AllIdle course.new.nodes) }
    ensures others { LeavesRest course.old.nodes course.new.nodes }
    ensures ok { (geo : Geometry) (given : Given) (lines : List Outcome) → HasReport geo given lines course.old → OnOk result (TellsMore geo given lines course.old course.new) }
    ensures err { (geo : Geometry) (given : Given) (lines : List Outcome) → HasReport geo given lines course.old → OnErr result (TellsUntil geo given lines course.old course.new) }
{
    'clients: for client in 1..clients + 1 {
        run_client(alloc, course, client)?;
    }
    Ok(())
}

// Has an idle client commit all that it keeps.
fn flush_client(alloc: Global, course: &mut Course, client: u8) -> Result<(), Halt>
    requires telling { IsFinishingTelling course.old }
    requires first { 1 ≤ client }
    requires last { client ≤ length course.old.nodes.clients }
    requires idle { AllIdle course.old.nodes }
    ensures idle { OnOk result (AllIdle course.new.nodes) }
    ensures none_kept { OnOk result (KeepsNoneAt course.new.nodes (client - 1)) }
    ensures others { OnOk result ((j : ℕ) → KeepsNoneAt course.old.nodes j → KeepsNoneAt course.new.nodes j) }
    ensures count { length course.new.nodes.clients ≡ length course.old.nodes.clients }
    ensures ok { (geo : Geometry) (given : Given) (lines : List Outcome) → HasReport geo given lines course.old → IsFinishing given lines → OnOk result (TellsMore geo given lines course.old course.new) }
    ensures err { (geo : Geometry) (given : Given) (lines : List Outcome) → HasReport geo given lines course.old → IsFinishing given lines → OnErr result (TellsUntil geo given lines course.old course.new) }
{
    if course.keeps(client) {
        course.flush(client);
        run_client(alloc, course, client)?;
    }
    Ok(())
}

// Has each idle client commit all that it keeps.
fn flush_all(alloc: Global, course: &mut Course, clients: u8) -> Result<(), Halt>
    requires telling { IsFinishingTelling course.old }
    requires clients { clients ≡ length course.old.nodes.clients }
    requires idle { AllIdle course.old.nodes }
    ensures idle { OnOk result (AllIdle course.new.nodes) }
    ensures none_kept { OnOk result (AllKeepNone course.new.nodes) }
    ensures ok { (geo : Geometry) (given : Given) (lines : List Outcome) → HasReport geo given lines course.old → IsFinishing given lines → OnOk result (TellsMore geo given lines course.old course.new) }
    ensures err { (geo : Geometry) (given : Given) (lines : List Outcome) → HasReport geo given lines course.old → IsFinishing given lines → OnErr result (TellsUntil geo given lines course.old course.new) }
{
    'clients: for client in 1..clients + 1 {
        flush_client(alloc, course, client)?;
    }
    Ok(())
}

/// Runs the clients, all of them, until none has work; then each that keeps calls commits them, or its calls end as unfinished.
/// It answers true where none of the calls that were given so far ended so. By then no client has work or keeps a call.
pub fn finish(alloc: Global, course: &mut Course, clients: u8) -> Result<bool, Halt>
    requires telling { IsTelling course.old }
    requires clients { clients ≡ length course.old.nodes.clients }
    ensures idle { OnOk result (AllIdle course.new.nodes) }
    ensures none_kept { OnOk result (AllKeepNone course.new.nodes) }
    ensures unfinished { IfOk result (λ done. done ≡ not course.new.unfinished) }
    ensures ok { (geo : Geometry) (given : Given) (lines : List Outcome) → HasReport geo given lines course.old
        → OnOk result (TellsMore geo (with_finish given (length lines)) lines course.old course.new) }
    ensures err { (geo : Geometry) (given : Given) (lines : List Outcome) → HasReport geo given lines course.old
        → OnErr result (TellsUntil geo (with_finish given (length lines)) lines course.old course.new) }
{
    run_all(alloc, course, clients)?;
    flush_all(alloc, course, clients)?;
    Ok(!course.has_unfinished())
}
