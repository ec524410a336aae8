ghost use Rattle.std.specs.Prelude.{◌≡◌, ◌<◌, ◌-◌, ◌∷◌, ◌++◌, ℕ, Bool, List, [], true, false, IfOk, OnOk, IsTrue, MatchResult, None, Some};
ghost use Rattle.zb_types.specs.Limits.{within};
ghost use Rattle.zb_types.specs.declared.calls.Call.{Call};
ghost use Rattle.zb_types.specs.declared.lines.Kind.TheVariants.{Idle};
ghost use Rattle.zb_types.specs.declared.lines.Line.{Line};
ghost use Rattle.zb_types.specs.declared.lines.Line.TheVariants.{Call as CallLine};
ghost use Rattle.zb_ending.specs.Left.{work_left};
ghost use Rattle.zb_nodes.specs.Seen.{kind_at};
ghost use Rattle.zebra.specs.Moves.{HasCause, TakesNone, tape};
ghost use Rattle.zebra.specs.Running.{IsBetween, IsCalling, IsCutOff};

use crate::ending::Halted;
use std::alloc::Global;
use zb_outside::Outside;
use zb_running::{reports_take_steps, steps_keep_the_line};
use zb_types::{Failed, Kind, Node};
use zb_world::{Halt, Step, World};

// A step of a client at a call of its own, or of the client that it waits for; lines that are told are printed. False where
// the client has no work.
fn answer_on<O: Outside + Drop>(
    alloc: Global,
    world: &mut World<O>,
    client: u8,
) -> Result<bool, Halted>
    requires client { IsTrue (within 1 world.old.geo.clients client) }
    requires settled { world.old.course.untold ≡ None }
    ensures settled { OnOk result (world.new.course.untold ≡ None) }
    ensures geo { world.new.geo ≡ world.old.geo }
    ensures idle { IfOk result (λ on. on ≡ false → kind_at world.new.course.nodes (client - 1) ≡ Some Idle) }
    ensures less { IfOk result (λ on. on ≡ true → work_left world.new.course.nodes < work_left world.old.course.nodes) }
    ensures told { IsTrue O.tells → (start : List ℕ) (script : List Line) (plus : Bool) (call : Call) → IsCalling start world.old.geo script plus client call world.old.course (O.meaning world.old.out).now.printed
        → MatchResult result (λ _. IsCalling start world.old.geo script plus client call world.new.course (O.meaning world.new.out).now.printed)
        (λ halted. IsCutOff halted start world.old.geo (script ++ CallLine plus client call ∷ []) (O.meaning world.new.out).now.printed) }
    ensures takes { IsTrue O.tells → TakesNone (tape (O.counts world.old.out).streams (O.meaning world.old.out)) (tape (O.counts world.new.out).streams (O.meaning world.new.out)) }
    ensures cause { HasCause result (O.counts world.old.out).streams (O.counts world.new.out).streams }
{
    reports_take_steps();
    steps_keep_the_line();
    match world.step_or_holder(alloc, client)? {
        Step::Answered => {
            world.put_report()?;
            Ok(true)
        }
        Step::Moved | Step::Blocked { .. } => Ok(true),
        Step::Idle => Ok(false),
    }
}

/// Steps of a client until it has no work; where it is blocked, the client that holds the file manager makes one. The lines
/// are printed.
pub fn settle<O: Outside + Drop>(
    alloc: Global,
    world: &mut World<O>,
    client: u8,
) -> Result<(), Halted>
    requires client { IsTrue (within 1 world.old.geo.clients client) }
    requires settled { world.old.course.untold ≡ None }
    ensures settled { OnOk result (world.new.course.untold ≡ None) }
    ensures geo { world.new.geo ≡ world.old.geo }
    ensures idle { OnOk result (kind_at world.new.course.nodes (client - 1) ≡ Some Idle) }
    ensures told { IsTrue O.tells → (start : List ℕ) (script : List Line) (plus : Bool) (call : Call) → IsCalling start world.old.geo script plus client call world.old.course (O.meaning world.old.out).now.printed
        → MatchResult result (λ _. IsCalling start world.old.geo script plus client call world.new.course (O.meaning world.new.out).now.printed)
        (λ halted. IsCutOff halted start world.old.geo (script ++ CallLine plus client call ∷ []) (O.meaning world.new.out).now.printed) }
    ensures takes { IsTrue O.tells → TakesNone (tape (O.counts world.old.out).streams (O.meaning world.old.out)) (tape (O.counts world.new.out).streams (O.meaning world.new.out)) }
    ensures cause { HasCause result (O.counts world.old.out).streams (O.counts world.new.out).streams }
{
    'steps: while answer_on(alloc, world, client)? {}
    Ok(())
}

// A step of a client; lines that it tells are printed. False where the client has no work, or is blocked.
fn step_once<O: Outside + Drop>(
    alloc: Global,
    world: &mut World<O>,
    client: u8,
) -> Result<bool, Halted>
    requires client { IsTrue (within 1 world.old.geo.clients client) }
    requires settled { world.old.course.untold ≡ None }
    ensures settled { OnOk result (world.new.course.untold ≡ None) }
    ensures geo { world.new.geo ≡ world.old.geo }
    ensures less { IfOk result (λ on. on ≡ true → work_left world.new.course.nodes < work_left world.old.course.nodes) }
    ensures told { IsTrue O.tells → (start : List ℕ) (script : List Line) → IsBetween start world.old.geo script world.old.course (O.meaning world.old.out).now.printed
        → MatchResult result (λ _. IsBetween start world.old.geo script world.new.course (O.meaning world.new.out).now.printed)
        (λ halted. IsCutOff halted start world.old.geo script (O.meaning world.new.out).now.printed) }
    ensures takes { IsTrue O.tells → TakesNone (tape (O.counts world.old.out).streams (O.meaning world.old.out)) (tape (O.counts world.new.out).streams (O.meaning world.new.out)) }
    ensures cause { HasCause result (O.counts world.old.out).streams (O.counts world.new.out).streams }
{
    reports_take_steps();
    steps_keep_the_line();
    match world.step(alloc, Node::Client(client))? {
        Step::Answered => {
            world.put_report()?;
            Ok(true)
        }
        Step::Moved => Ok(true),
        Step::Blocked { .. } | Step::Idle => Ok(false),
    }
}

/// At most so many steps of a client; fewer where it has no work then, or is blocked. The lines are printed.
pub fn step_times<O: Outside + Drop>(
    alloc: Global,
    world: &mut World<O>,
    client: u8,
    count: u32,
) -> Result<(), Halted>
    requires client { IsTrue (within 1 world.old.geo.clients client) }
    requires settled { world.old.course.untold ≡ None }
    ensures settled { OnOk result (world.new.course.untold ≡ None) }
    ensures geo { world.new.geo ≡ world.old.geo }
    ensures told { IsTrue O.tells → (start : List ℕ) (script : List Line) → IsBetween start world.old.geo script world.old.course (O.meaning world.old.out).now.printed
        → MatchResult result (λ _. IsBetween start world.old.geo script world.new.course (O.meaning world.new.out).now.printed)
        (λ halted. IsCutOff halted start world.old.geo script (O.meaning world.new.out).now.printed) }
    ensures takes { IsTrue O.tells → TakesNone (tape (O.counts world.old.out).streams (O.meaning world.old.out)) (tape (O.counts world.new.out).streams (O.meaning world.new.out)) }
    ensures cause { HasCause result (O.counts world.old.out).streams (O.counts world.new.out).streams }
{
    'steps: for _ in 0..count {
        if !step_once(alloc, world, client)? {
            return Ok(());
        }
    }
    Ok(())
}

/// Steps of a client until its next one is of this kind, or it has no work, or is blocked. The lines are printed.
pub fn step_until<O: Outside + Drop>(
    alloc: Global,
    world: &mut World<O>,
    client: u8,
    kind: Kind,
) -> Result<(), Halted>
    requires client { IsTrue (within 1 world.old.geo.clients client) }
    requires settled { world.old.course.untold ≡ None }
    ensures settled { OnOk result (world.new.course.untold ≡ None) }
    ensures geo { world.new.geo ≡ world.old.geo }
    ensures told { IsTrue O.tells → (start : List ℕ) (script : List Line) → IsBetween start world.old.geo script world.old.course (O.meaning world.old.out).now.printed
        → MatchResult result (λ _. IsBetween start world.old.geo script world.new.course (O.meaning world.new.out).now.printed)
        (λ halted. IsCutOff halted start world.old.geo script (O.meaning world.new.out).now.printed) }
    ensures takes { IsTrue O.tells → TakesNone (tape (O.counts world.old.out).streams (O.meaning world.old.out)) (tape (O.counts world.new.out).streams (O.meaning world.new.out)) }
    ensures cause { HasCause result (O.counts world.old.out).streams (O.counts world.new.out).streams }
{
    'steps: while world.kind(Node::Client(client)) != kind {
        if !step_once(alloc, world, client)? {
            return Ok(());
        }
    }
    Ok(())
}
