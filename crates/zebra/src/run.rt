ghost use Rattle.std.specs.Prelude.{◌≡◌, ◌<◌, ◌≤◌, ◌-◌, ◌∷◌, ◌++◌, ℕ, List, [], None, Some, OnOk, IsTrue, IfOk, false, true, MatchResult};
ghost use Rattle.zb_types.specs.Limits.{within};
ghost use Rattle.zb_types.specs.declared.lines.Line.{Line};
ghost use Rattle.zb_types.specs.declared.lines.Line.TheVariants.{Call as CallLine};
ghost use Rattle.zb_claims.specs.Text.{IsLine, max_script};
ghost use Rattle.zebra.specs.Pending.{wants_more};
ghost use Rattle.zebra.specs.Moves.{HasCause, StillReads, TakesNone, tape};
ghost use Rattle.zebra.specs.Rows.{line_of};
ghost use Rattle.zebra.specs.Running.{GoesOn, HasStopped, IsBetween, IsBroken, IsCutOffAt, IsRunning, Start};

use crate::ending::Halted;
use crate::reading::{Action, Ending, Next, next_row};
use crate::source::{PIECE, Source};
use crate::steps::{settle, step_times, step_until};
use std::alloc::Global;
use zb_outside::Outside;
use zb_running::{reports_end, reports_take_calls, steps_keep_the_line};
use zb_script::Script;
use zb_types::Call;
use zb_world::World;

// Takes bytes until a line is whole, or the script has no more; none where one is whole already.
fn fill<O: Outside + Drop>(
    alloc: Global,
    source: &mut Source,
    world: &mut World<O>,
) -> Result<(), Halted>
    ensures none { wants_more source.old ≡ false → (source.new ≡ source.old) × (world.new ≡ world.old) }
    ensures whole { OnOk result (wants_more source.new ≡ false) }
    ensures course { world.new.course ≡ world.old.course }
    ensures geo { world.new.geo ≡ world.old.geo }
    ensures told { IsTrue O.tells → StillReads result source.old source.new (tape (O.counts world.old.out).streams (O.meaning world.old.out)) (tape (O.counts world.new.out).streams (O.meaning world.new.out)) }
    ensures prints { IsTrue O.tells → (O.meaning world.new.out).now.printed ≡ (O.meaning world.old.out).now.printed }
    ensures cause { HasCause result (O.counts world.old.out).streams (O.counts world.new.out).streams }
{
    if !source.wants_more() {
        return Ok(());
    }
    let mut piece = [0; PIECE];
    'takes: while source.wants_more() {
        let taken = world.take(&mut piece);
        source.accept(alloc, taken, &piece)?;
    }
    Ok(())
}

// Gives a client a call; one with no plus is answered, and its lines are printed.
fn run_call<O: Outside + Drop>(
    alloc: Global,
    world: &mut World<O>,
    plus: bool,
    client: u8,
    call: Call,
) -> Result<(), Halted>
    requires line { IsLine world.old.geo (CallLine plus client call) }
    requires settled { world.old.course.untold ≡ None }
    ensures settled { OnOk result (world.new.course.untold ≡ None) }
    ensures geo { world.new.geo ≡ world.old.geo }
    ensures told { IsTrue O.tells → (start : List ℕ) (script : List Line) → IsBetween start world.old.geo script world.old.course (O.meaning world.old.out).now.printed
        → MatchResult result (λ _. IsBetween start world.old.geo (script ++ CallLine plus client call ∷ []) world.new.course (O.meaning world.new.out).now.printed)
        (λ halted. IsCutOffAt halted start world.old.geo script (CallLine plus client call) (O.meaning world.new.out).now.printed) }
    ensures takes { IsTrue O.tells → TakesNone (tape (O.counts world.old.out).streams (O.meaning world.old.out)) (tape (O.counts world.new.out).streams (O.meaning world.new.out)) }
    ensures cause { HasCause result (O.counts world.old.out).streams (O.counts world.new.out).streams }
{
    reports_take_calls();
    reports_end();
    steps_keep_the_line();
    world.call(alloc, client, call)?;
    if plus {
        return Ok(());
    }
    settle(alloc, world, client)
}

// Carries out a line of a script, and prints the lines that are told.
fn run_action<O: Outside + Drop>(
    alloc: Global,
    world: &mut World<O>,
    action: Action,
) -> Result<(), Halted>
    requires line { IsLine world.old.geo (line_of action) }
    requires settled { world.old.course.untold ≡ None }
    ensures settled { OnOk result (world.new.course.untold ≡ None) }
    ensures geo { world.new.geo ≡ world.old.geo }
    ensures told { IsTrue O.tells → (start : List ℕ) (script : List Line) → IsBetween start world.old.geo script world.old.course (O.meaning world.old.out).now.printed
        → MatchResult result (λ _. IsBetween start world.old.geo (script ++ line_of action ∷ []) world.new.course (O.meaning world.new.out).now.printed)
        (λ halted. IsCutOffAt halted start world.old.geo script (line_of action) (O.meaning world.new.out).now.printed) }
    ensures takes { IsTrue O.tells → TakesNone (tape (O.counts world.old.out).streams (O.meaning world.old.out)) (tape (O.counts world.new.out).streams (O.meaning world.new.out)) }
    ensures cause { HasCause result (O.counts world.old.out).streams (O.counts world.new.out).streams }
{
    match action {
        Action::Call { plus, client, call } => run_call(alloc, world, plus, client, call),
        Action::Steps { client, count } => step_times(alloc, world, client, count),
        Action::Until { client, kind } => step_until(alloc, world, client, kind),
    }
}

// Runs the next row of the script, or says where its rows ended.
fn run_row<O: Outside + Drop>(
    alloc: Global,
    script: &mut Script,
    source: &mut Source,
    world: &mut World<O>,
) -> Result<Option<Ending>, Halted>
    requires system { script.old.geo ≡ Some world.old.geo }
    requires settled { world.old.course.untold ≡ None }
    ensures settled { OnOk result (world.new.course.untold ≡ None) }
    ensures system { script.new.geo ≡ Some world.new.geo }
    ensures geo { world.new.geo ≡ world.old.geo }
    ensures more { IfOk result (λ ended. ended ≡ None → (script.old.used < script.new.used) × (script.new.used ≤ max_script)) }
    ensures told { IsTrue O.tells → (start : Start) → IsRunning start script.old source.old world.old.course (tape (O.counts world.old.out).streams (O.meaning world.old.out))
        → MatchResult result (λ ended. GoesOn ended start script.new source.new world.new.course (tape (O.counts world.new.out).streams (O.meaning world.new.out))) (λ halted. IsBroken halted start (tape (O.counts world.new.out).streams (O.meaning world.new.out))) }
    ensures cause { HasCause result (O.counts world.old.out).streams (O.counts world.new.out).streams }
{
    fill(alloc, source, world)?;
    match next_row(alloc, script, source)? {
        Next::Run { action, len } => {
            source.skip(len);
            run_action(alloc, world, action)?;
            Ok(None)
        }
        Next::Skipped { len } => {
            source.skip(len);
            Ok(None)
        }
        Next::Ended(ending) => Ok(Some(ending)),
    }
}

/// Runs the rows of a script behind its header, and prints the lines that are told.
pub fn run_rows<O: Outside + Drop>(
    alloc: Global,
    script: &mut Script,
    source: &mut Source,
    world: &mut World<O>,
) -> Result<Ending, Halted>
    requires system { script.old.geo ≡ Some world.old.geo }
    requires settled { world.old.course.untold ≡ None }
    ensures settled { OnOk result (world.new.course.untold ≡ None) }
    ensures geo { world.new.geo ≡ world.old.geo }
    ensures told { IsTrue O.tells → (start : Start) → IsRunning start script.old source.old world.old.course (tape (O.counts world.old.out).streams (O.meaning world.old.out))
        → MatchResult result (λ ending. HasStopped ending start source.new world.new.course (tape (O.counts world.new.out).streams (O.meaning world.new.out))) (λ halted. IsBroken halted start (tape (O.counts world.new.out).streams (O.meaning world.new.out))) }
    ensures cause { HasCause result (O.counts world.old.out).streams (O.counts world.new.out).streams }
{
    'rows: loop {
        if let Some(ending) = run_row(alloc, script, source, world)? {
            return Ok(ending);
        }
    }
}
