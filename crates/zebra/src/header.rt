ghost use Rattle.std.specs.Prelude.{◌≡◌, ◌≤◌, ◌<◌, ◌-◌, IsTrue, IfOk, IfSome, OnOk, false, None, Some};
ghost use Rattle.zb_claims.specs.Text.{max_script};
ghost use Rattle.zebra.specs.Pending.{wants_more};
ghost use Rattle.zebra.specs.Moves.{tape, StillReads, HasCause};
ghost use Rattle.zebra.specs.Headers.{HeadIs, HeadMoves, IsSystemOf, StillHeads, Heads};

use crate::ending::Halted;
use crate::source::{PIECE, Source};
use std::alloc::Global;
use zb_outside::Outside;
use zb_script::{Parsed, Script};
use zb_types::{Geometry, Mem, NoMemory};

/// What the first line of a script is that says something.
#[derive(Clone, Copy, PartialEq, Eq)]
pub enum Heading {
    /// The header of a system.
    System(Geometry),
    /// No header: the line with this number isn't one.
    Missing { number: u64 },
}

// Takes bytes until a line is whole, or the script has no more; none where one is whole already.
fn fill<O: Outside + Drop>(alloc: Global, source: &mut Source, out: &mut O) -> Result<(), Halted>
    ensures none { wants_more source.old ≡ false → (source.new ≡ source.old) × (out.new ≡ out.old) }
    ensures whole { OnOk result (wants_more source.new ≡ false) }
    ensures told { IsTrue O.tells → StillReads result source.old source.new (tape (O.counts out.old).streams (O.meaning out.old)) (tape (O.counts out.new).streams (O.meaning out.new)) }
    ensures prints { IsTrue O.tells → (O.meaning out.new).now.printed ≡ (O.meaning out.old).now.printed }
    ensures cause { HasCause result (O.counts out.old).streams (O.counts out.new).streams }
{
    if !source.wants_more() {
        return Ok(());
    }
    let mut piece = [0; PIECE];
    'takes: while source.wants_more() {
        let taken = out.take(&mut piece);
        source.accept(alloc, taken, &piece)?;
    }
    Ok(())
}

// What comes next where no header was read.
#[derive(Clone, Copy, PartialEq, Eq)]
enum Head {
    Skipped { len: usize },
    Header { geo: Geometry, len: usize },
    Missing { number: u64 },
}

// Reads what the pending bytes begin with, before the header.
fn next_head(alloc: Global, script: &mut Script, source: &Source) -> Mem<Head>
    requires none { script.old.geo ≡ None }
    requires whole { wants_more source.now ≡ false }
    ensures next { IfOk result (HeadIs script.old source.now) }
    ensures moves { IfOk result (λ head. HeadMoves script.old head script.new) }
{
    let number = script.line_number();
    Ok(match script.next(alloc, source.rest())? {
        Parsed::Skipped { used } => Head::Skipped { len: used },
        Parsed::Header { geo, used } => Head::Header { geo, len: used },
        Parsed::Bad { number } => Head::Missing { number },
        Parsed::More => Head::Missing { number },
        Parsed::Line { .. } => Head::Missing { number },
    })
}

// Reads a line before the header, or the header. None where the line says nothing.
fn read_line<O: Outside + Drop>(
    alloc: Global,
    script: &mut Script,
    source: &mut Source,
    out: &mut O,
) -> Result<Option<Heading>, Halted>
    requires none { script.old.geo ≡ None }
    ensures system { IfOk result (λ found. IfSome found (IsSystemOf script.new.geo)) }
    ensures more { IfOk result (λ found. found ≡ None → (script.new.geo ≡ None) × (script.old.used < script.new.used) × (script.new.used ≤ max_script)) }
    ensures told { IsTrue O.tells → StillHeads result script.old source.old (tape (O.counts out.old).streams (O.meaning out.old)) script.new source.new (tape (O.counts out.new).streams (O.meaning out.new)) }
    ensures prints { IsTrue O.tells → (O.meaning out.new).now.printed ≡ (O.meaning out.old).now.printed }
    ensures cause { HasCause result (O.counts out.old).streams (O.counts out.new).streams }
{
    fill(alloc, source, out)?;
    match next_head(alloc, script, source)? {
        Head::Skipped { len } => {
            source.skip(len);
            Ok(None)
        }
        Head::Header { geo, len } => {
            source.skip(len);
            Ok(Some(Heading::System(geo)))
        }
        Head::Missing { number } => Ok(Some(Heading::Missing { number })),
    }
}

/// Reads the header of a script, and the empty lines and comments before it.
pub fn read_head<O: Outside + Drop>(
    alloc: Global,
    script: &mut Script,
    source: &mut Source,
    out: &mut O,
) -> Result<Heading, Halted>
    requires none { script.old.geo ≡ None }
    ensures system { IfOk result (IsSystemOf script.new.geo) }
    ensures prints { IsTrue O.tells → (O.meaning out.new).now.printed ≡ (O.meaning out.old).now.printed }
    ensures told { IsTrue O.tells → Heads result script.old source.old (tape (O.counts out.old).streams (O.meaning out.old)) script.new source.new (tape (O.counts out.new).streams (O.meaning out.new)) }
    ensures cause { HasCause result (O.counts out.old).streams (O.counts out.new).streams }
{
    'lines: loop {
        if let Some(heading) = read_line(alloc, script, source, out)? {
            return Ok(heading);
        }
    }
}
