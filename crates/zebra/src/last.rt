ghost use Rattle.std.specs.Prelude.{◌≡◌, ◌⊎◌, ◌++◌, ℕ, List, OnOk, IsTrue, IfOk, None, not, MatchResult, if◌then◌else◌};
ghost use Rattle.zb_types.specs.declared.lines.Line.{Line};
ghost use Rattle.zb_types.specs.declared.lines.Outcome.{Outcome};
ghost use Rattle.zb_claims.specs.Points.{tree_at};
ghost use Rattle.zb_claims.specs.Text.{list_text, tree_text};
ghost use Rattle.zb_claims.specs.Runs.{last_line, end_line, script_fault};
ghost use Rattle.zb_given.specs.Given.{Given, script_of};
ghost use Rattle.zb_finishing.specs.Clients.{AllIdle, AllKeepNone};
ghost use Rattle.zb_running.specs.Reports.{HasReport};
ghost use Rattle.zebra.specs.Moves.{HasCause, TakesNone, tape};
ghost use Rattle.zebra.specs.Ends.{HasEnded, later_line};
ghost use Rattle.zebra.specs.Pending.{Pending};
ghost use Rattle.zebra.specs.Running.{HasStopped, IsBetween, IsBroken, IsCutOff, IsFinal, Start};

use crate::ending::{BAD_SCRIPT, DONE, Halted, LATER, UNFINISHED};
use crate::reading::Ending;
use std::alloc::Global;
use zb_outside::Outside;
use zb_report::{number_into, tree};
use zb_running::{reports_end, reports_take_steps};
use zb_types::{Failed, Mem, NoMemory, TreeList};
use zb_world::{Halt, World};

/// What stands behind the lines of a report, and the exit status that it tells.
#[derive(Drop)]
pub struct Last {
    pub text: Vec<u8>,
    pub status: u8,
}

// Has all calls answered, and prints the lines. True where none ended as unfinished.
fn finish<O: Outside + Drop>(alloc: Global, world: &mut World<O>) -> Result<bool, Halted>
    requires settled { world.old.course.untold ≡ None }
    ensures idle { OnOk result (AllIdle world.new.course.nodes) }
    ensures none_kept { OnOk result (AllKeepNone world.new.course.nodes) }
    ensures unfinished { IfOk result (λ done. done ≡ not world.new.course.unfinished) }
    ensures geo { world.new.geo ≡ world.old.geo }
    ensures told { IsTrue O.tells → (start : List ℕ) (script : List Line) → IsBetween start world.old.geo script world.old.course (O.meaning world.old.out).now.printed
        → MatchResult result (λ _. IsFinal start world.old.geo script world.new.course (O.meaning world.new.out).now.printed) (λ halted. IsCutOff halted start world.old.geo script (O.meaning world.new.out).now.printed) }
    ensures takes { IsTrue O.tells → TakesNone (tape (O.counts world.old.out).streams (O.meaning world.old.out)) (tape (O.counts world.new.out).streams (O.meaning world.new.out)) }
    ensures cause { HasCause result (O.counts world.old.out).streams (O.counts world.new.out).streams }
{
    reports_take_steps();
    let finished = world.finish(alloc);
    world.put_report()?;
    Ok(finished?)
}

// A last line of a word and a number.
fn last_line(alloc: Global, word: &[u8], number: u64) -> Mem<Vec<u8>>
    ensures { IfOk result (λ text. text.items ≡ last_line word.now number) }
{
    let mut text = Vec::new(alloc);
    text.extend_from_slice(word)?;
    text.push(b' ')?;
    number_into(alloc, &mut text, number)?;
    text.push(b'\n')?;
    Ok(text)
}

/// The last line where this line of a script isn't one of the language.
pub fn bad_line(alloc: Global, number: u64) -> Mem<Last>
    ensures { IfOk result (λ last. (last.status ≡ 2) × (last.text.items ≡ script_fault number)) }
{
    Ok(Last {
        text: last_line(alloc, b"script", number)?,
        status: BAD_SCRIPT,
    })
}

/// The last line where the program doesn't run this line of a script so far.
pub fn later_line(alloc: Global, number: u64) -> Mem<Last>
    ensures { IfOk result (λ last. (last.status ≡ 10) × (last.text.items ≡ later_line number)) }
{
    Ok(Last {
        text: last_line(alloc, b"later", number)?,
        status: LATER,
    })
}

// The lines of the tree and of the end.
fn end_text(alloc: Global, list: &TreeList, status: u8) -> Mem<Vec<u8>>
    ensures { IfOk result (λ text. text.items ≡ list_text list.now ++ end_line status) }
{
    let mut text = tree(alloc, list)?.into_items();
    let end = last_line(alloc, b"end", status as u64)?;
    text.extend_from_slice(&end)?;
    Ok(text)
}

// What stands behind the lines at the end of a script, where all calls were answered, or not.
fn end_of<O: Outside + Drop>(alloc: Global, world: &World<O>, done: bool) -> Mem<Last>
    ensures status { IfOk result (λ last. last.status ≡ (if done then 0 else 7)) }
    ensures text { (given : Given) (lines : List Outcome) → HasReport world.now.geo given lines world.now.course
        → IfOk result (λ last. last.text.items ≡ tree_text (tree_at (script_of given) lines) ++ end_line last.status) }
{
    let status = if done { DONE } else { UNFINISHED };
    let Some(list) = world.tree(alloc)? else {
        return Ok(Last {
            text: Vec::new(alloc),
            status,
        });
    };
    let text = end_text(alloc, &list, status)?;
    Ok(Last { text, status })
}

/// Answers all calls of a script that was read to its end, and prints their lines; gives what stands behind them.
pub fn last_of<O: Outside + Drop>(
    alloc: Global,
    world: &mut World<O>,
    ending: Ending,
) -> Result<Last, Halted>
    requires settled { world.old.course.untold ≡ None }
    ensures status { IfOk result (λ last. (last.status ≡ 0) ⊎ ((last.status ≡ 7) ⊎ ((last.status ≡ 2) ⊎ (last.status ≡ 10)))) }
    ensures geo { world.new.geo ≡ world.old.geo }
    ensures told { IsTrue O.tells → (start : Start) (p : Pending) → start.geo ≡ world.old.geo → HasStopped ending start p world.old.course (tape (O.counts world.old.out).streams (O.meaning world.old.out))
        → MatchResult result (λ last. HasEnded start last p (tape (O.counts world.new.out).streams (O.meaning world.new.out))) (λ halted. IsBroken halted start (tape (O.counts world.new.out).streams (O.meaning world.new.out))) }
    ensures cause { HasCause result (O.counts world.old.out).streams (O.counts world.new.out).streams }
{
    match ending {
        Ending::Bad { number } => Ok(bad_line(alloc, number)?),
        Ending::Later { number } => Ok(later_line(alloc, number)?),
        Ending::End => {
            reports_end();
            let done = finish(alloc, world)?;
            Ok(end_of(alloc, world, done)?)
        }
    }
}
