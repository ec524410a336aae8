ghost use Rattle.std.specs.Prelude.{◌≡◌, ◌⊎◌, ◌≤◌, Some, IsTrue, IfOk, true, false, MatchResult};
ghost use Rattle.zb_claims.specs.Runs.{usage, read_fault, out_of_memory};
ghost use Rattle.zb_outside.specs.Streams.{Rose};
ghost use Rattle.zebra.specs.Moves.{Tape, tape, HasCause};
ghost use Rattle.zebra.specs.Headers.{HasSystem};
ghost use Rattle.zebra.specs.Running.{Start, IsRunning, IsBroken};
ghost use Rattle.zebra.specs.Ends.{HasEnded, PutsLast, PutsFault, PutsHalted, RunsFrom, IsStatus, IsCaused, is_run};

use crate::ending::{Halted, NO_MEMORY, READ_FAULT, USAGE, WRITE_FAULT};
use crate::header::{Heading, read_head};
use crate::last::{Last, bad_line, last_of};
use crate::run::run_rows;
use crate::source::Source;
use std::alloc::Global;
use zb_outside::Outside;
use zb_running::reports_begin;
use zb_script::Script;
use zb_types::{Geometry, Mem, NoMemory};
use zb_world::World;

/// How a run ended, as the exit status of the program: 0 at the end of the script, 7 there too where an update is unfinished, 2 at a line that is none of the
/// script's language, 3 where the script can't be read, 4 where the report can't be written, 5 for other words than
/// `run`, 6 for want of memory, and 10 at a line whose form the program doesn't run so far.
#[derive(Clone, Copy, Debug, PartialEq, Eq)]
pub struct Status(pub u8);

// Prints the last bytes of a report. The status is 4 where that fails.
fn put_last<O: Outside + Drop>(out: &mut O, bytes: &[u8], status: u8) -> Status
    ensures told { IsTrue O.tells → PutsLast bytes.now status result.0 (tape (O.counts out.old).streams (O.meaning out.old)) (tape (O.counts out.new).streams (O.meaning out.new)) }
    ensures status { (result.0 ≡ status) ⊎ (result.0 ≡ 4) }
    ensures cause { (result.0 ≡ status) ⊎ Rose (O.counts out.old).streams.write_faults (O.counts out.new).streams.write_faults }
    ensures reads { (O.counts out.new).streams.read_faults ≡ (O.counts out.old).streams.read_faults }
    ensures writes { (O.counts out.old).streams.write_faults ≤ (O.counts out.new).streams.write_faults }
{
    match out.put(bytes) {
        Ok(()) => Status(status),
        Err(_) => Status(WRITE_FAULT),
    }
}

// Prints why a run broke off, but where nothing can be printed.
fn put_halted<O: Outside + Drop>(out: &mut O, halted: Halted) -> Status
    ensures told { IsTrue O.tells → PutsHalted halted result.0 (tape (O.counts out.old).streams (O.meaning out.old)) (tape (O.counts out.new).streams (O.meaning out.new)) }
    ensures status { (result.0 ≡ 3) ⊎ ((result.0 ≡ 4) ⊎ (result.0 ≡ 6)) }
    ensures read { result.0 ≡ 3 → halted ≡ Halted.ReadFault }
    ensures write { result.0 ≡ 4 → (halted ≡ Halted.WriteFault) ⊎ Rose (O.counts out.old).streams.write_faults (O.counts out.new).streams.write_faults }
    ensures reads { (O.counts out.new).streams.read_faults ≡ (O.counts out.old).streams.read_faults }
    ensures writes { (O.counts out.old).streams.write_faults ≤ (O.counts out.new).streams.write_faults }
{
    match halted {
        Halted::Memory => put_last(out, b"out of memory\n", NO_MEMORY),
        Halted::ReadFault => put_last(out, b"read fault\n", READ_FAULT),
        Halted::WriteFault => Status(WRITE_FAULT),
    }
}

// Prints the last line of a script without a header.
fn put_fault<O: Outside + Drop>(out: &mut O, last: Mem<Last>) -> Status
    requires { IfOk last (λ last. last.status ≡ 2) }
    ensures told { IsTrue O.tells → PutsFault last result.0 (tape (O.counts out.old).streams (O.meaning out.old)) (tape (O.counts out.new).streams (O.meaning out.new)) }
    ensures status { (result.0 ≡ 2) ⊎ ((result.0 ≡ 4) ⊎ (result.0 ≡ 6)) }
    ensures write { result.0 ≡ 4 → Rose (O.counts out.old).streams.write_faults (O.counts out.new).streams.write_faults }
    ensures reads { (O.counts out.new).streams.read_faults ≡ (O.counts out.old).streams.read_faults }
    ensures writes { (O.counts out.old).streams.write_faults ≤ (O.counts out.new).streams.write_faults }
{
    match last {
        Ok(last) => put_last(out, &last.text, last.status),
        Err(NoMemory) => put_halted(out, Halted::Memory),
    }
}

// Runs all rows of a script behind its header, and gives what stands behind their lines.
fn run_all<O: Outside + Drop>(
    alloc: Global,
    script: &mut Script,
    source: &mut Source,
    world: &mut World<O>,
) -> Result<Last, Halted>
    requires system { script.old.geo ≡ Some world.old.geo }
    requires settled { world.old.course.untold ≡ None }
    ensures status { IfOk result (λ last. (last.status ≡ 0) ⊎ ((last.status ≡ 7) ⊎ ((last.status ≡ 2) ⊎ (last.status ≡ 10)))) }
    ensures told { IsTrue O.tells → (start : Start) → start.geo ≡ world.old.geo → IsRunning start script.old source.old world.old.course (tape (O.counts world.old.out).streams (O.meaning world.old.out))
        → MatchResult result (λ last. HasEnded start last source.new (tape (O.counts world.new.out).streams (O.meaning world.new.out))) (λ halted. IsBroken halted start (tape (O.counts world.new.out).streams (O.meaning world.new.out))) }
    ensures cause { HasCause result (O.counts world.old.out).streams (O.counts world.new.out).streams }
{
    let ending = run_rows(alloc, script, source, world)?;
    last_of(alloc, world, ending)
}

// Runs a script behind its header.
fn run_script<O: Outside + Drop>(
    alloc: Global,
    geo: Geometry,
    script: Script,
    source: Source,
    out: O,
) -> (Status, O)
    requires system { script.geo ≡ Some geo }
    ensures told { IsTrue O.tells → (start : Tape) → HasSystem start geo script source (tape (O.counts out).streams (O.meaning out)) → start.printed ≡ (O.meaning out).now.printed → RunsFrom result.0.0 start (tape (O.counts result.1).streams (O.meaning result.1)) }
    ensures status { IsStatus result.0.0 }
    ensures cause { IsCaused result.0.0 (O.counts out).streams (O.counts result.1).streams }
{
    let mut script = script;
    let mut source = source;
    let mut world = match World::new(alloc, geo, out) {
        Ok(world) => world,
        Err((_, mut out)) => {
            let status = put_halted(&mut out, Halted::Memory);
            return (status, out);
        }
    };
    reports_begin();
    let last = run_all(alloc, &mut script, &mut source, &mut world);
    let mut out = world.outside();
    let status = match last {
        Ok(last) => put_last(&mut out, &last.text, last.status),
        Err(halted) => put_halted(&mut out, halted),
    };
    (status, out)
}

// Whether the words ask for a run.
fn is_run(words: &[String]) -> bool
    ensures { result ≡ is_run words.now }
{
    matches!(words, [word] if word.as_str() == "run")
}

/// Runs the script that the outside gives, and prints its report, where the words are just `run`.
///
/// The bytes that were printed are the lines of the calls that were read, which tell one history of one file tree with each
/// client's calls in their order, and the lines that tell how the run ended.
pub fn zebra_run<O: Outside + Drop>(alloc: Global, words: &[String], out: O) -> (Status, O)
    ensures runs { IsTrue O.tells → is_run words.now ≡ true → RunsFrom result.0.0 (tape (O.counts out).streams (O.meaning out)) (tape (O.counts result.1).streams (O.meaning result.1)) }
    ensures usage { IsTrue O.tells → is_run words.now ≡ false → PutsLast usage 5 result.0.0 (tape (O.counts out).streams (O.meaning out)) (tape (O.counts result.1).streams (O.meaning result.1)) }
    ensures status { is_run words.now ≡ true → IsStatus result.0.0 }
    ensures other_words { is_run words.now ≡ false → (result.0.0 ≡ 5) ⊎ (result.0.0 ≡ 4) }
    ensures cause { IsCaused result.0.0 (O.counts out).streams (O.counts result.1).streams }
{
    let mut out = out;
    if !is_run(words) {
        let status = put_last(&mut out, b"usage\n", USAGE);
        return (status, out);
    }
    let mut script = Script::new();
    let mut source = Source::new(alloc);
    let status = match read_head(alloc, &mut script, &mut source, &mut out) {
        Ok(Heading::System(geo)) => return run_script(alloc, geo, script, source, out),
        Ok(Heading::Missing { number }) => put_fault(&mut out, bad_line(alloc, number)),
        Err(halted) => put_halted(&mut out, halted),
    };
    (status, out)
}
