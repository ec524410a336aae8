ghost use Rattle.std.specs.Prelude.{◌≡◌, ◌↔◌, true, is_some, map, IfOk, IfSome, IsTrue};
ghost use Rattle.std.specs.List.{AllByRecursion, flat_map};
ghost use Rattle.std.specs.List.Sorted.{IsPermutation, IsStrictlySortedBy};
ghost use Rattle.std.specs.Map.{keys_of};
ghost use Rattle.std.specs.Option.{option_map};
ghost use Rattle.std.specs.Ordering.{nat_cmp};
ghost use Rattle.zb_types.specs.Keyed.{look};
ghost use Rattle.zb_names.specs.Shown.{seen};
ghost use Rattle.zb_log_tables.specs.Logs.{state_of};
ghost use Rattle.zb_tables.specs.Checkpoint.{number_of};
ghost use Rattle.zb_spelling.specs.Limits.{AreWithin, FileFits, Unites, keeps};
ghost use Rattle.zb_spelling.specs.Parts.{tables_of};
ghost use Rattle.zb_spelling.specs.Reading.{HasRoom, shown_file, shown_tables};
ghost use Rattle.zb_spelling.specs.Unspelling.{sizes_of};

use crate::parts::Parts;
use crate::rows::{FileRow, Rows};
use std::alloc::Global;
use zb_log_tables::{HeldTable, Log, LogTable};
use zb_names::{Entry, Names};
use zb_pointers::Pointers;
use zb_types::{Geometry, LogId, Mem, NoMemory, Path};

// The numbers of the files among some names, in the order of their paths.
fn numbers_of(alloc: Global, names: &[(Path, Entry)]) -> Mem<Vec<u32>>
    ensures { IfOk result (λ numbers. numbers.items ≡ flat_map (λ e. number_of (seen e.1)) names.now) }
{
    let mut numbers = Vec::new(alloc);
    for name in names {
        if let Entry::File(fid) = name.1 {
            numbers.push(fid.0)?;
        }
    }
    Ok(numbers)
}

// The numbers of some files.
fn keys_of(alloc: Global, files: &[FileRow]) -> Mem<Vec<u32>>
    ensures { IfOk result (λ numbers. numbers.items ≡ keys_of (map shown_file files.now)) }
{
    let mut numbers = Vec::new(alloc);
    for row in files {
        numbers.push(row.fid.0)?;
    }
    Ok(numbers)
}

fn are_same(numbers: &[u32], others: &[u32]) -> bool
    ensures { IsTrue result ↔ (numbers.now ≡ others.now) }
{
    numbers == others
}

// Whether these files, whose numbers rise, are those of the names, each named once. It takes memory for their numbers,
// and sorts those of the names.
fn are_named(alloc: Global, names: &[(Path, Entry)], files: &[FileRow]) -> Mem<bool>
    requires { IsStrictlySortedBy nat_cmp (keys_of (map shown_file files.now)) }
    ensures { IfOk result (λ named. IsTrue named ↔ IsPermutation (flat_map (λ e. number_of (seen e.1)) names.now) (keys_of (map shown_file files.now))) }
{
    let mut named = numbers_of(alloc, names)?;
    named.sort_unstable();
    let numbers = keys_of(alloc, files)?;
    Ok(are_same(named.as_slice(), numbers.as_slice()))
}

// Whether each log lives or holds a stripe.
fn all_kept(logs: &[Log], held: &HeldTable) -> bool
    ensures { IsTrue result ↔ AllByRecursion (λ log. keeps held.now.stripes (log.number, state_of log) ≡ true) logs.now }
{
    logs.iter()
        .all(|log| log.live || held.holds_any(log.number))
}

fn is_there(logs: &LogTable, log: LogId) -> bool
    ensures { result ≡ is_some (look log.0 logs.now.logs) }
{
    logs.find(log).is_some()
}

// Whether the log of each held stripe is there.
fn all_there(held: &HeldTable, logs: &LogTable) -> bool
    ensures { IsTrue result ↔ AllByRecursion (λ h. is_some (look h.log.0 logs.now.logs) ≡ true) held.now.stripes }
{
    held.slice().iter().all(|stripe| is_there(logs, stripe.log))
}

// The files, whose numbers and whose blocks' numbers rise.
fn pointers_of(alloc: Global, geo: &Geometry, files: &[FileRow]) -> Mem<Pointers>
    requires rising { IsStrictlySortedBy nat_cmp (keys_of (map shown_file files.now)) }
    requires blocks { AllByRecursion (λ row. IsStrictlySortedBy nat_cmp (keys_of row.blocks.items)) files.now }
    ensures files { IfOk result (λ pointers. pointers.files ≡ map shown_file files.now) }
    ensures block { IfOk result (λ pointers. pointers.block ≡ geo.now.block) }
{
    let mut pointers = Pointers::new(alloc, geo)?;
    let mut rest = files;
    while let Some((row, others)) = rest.split_first() {
        pointers.load_blocks(alloc, row.fid, row.head, &row.blocks)?;
        rest = others;
    }
    Ok(pointers)
}

/// The tables of what was read, whose parts are within their limits. None exactly where the parts don't agree.
pub(crate) fn build(alloc: Global, geo: &Geometry, rows: Rows) -> Mem<Option<Parts>>
    requires room { HasRoom (shown_tables rows) }
    requires within { AreWithin (sizes_of geo.now) (shown_tables rows) }
    ensures tables { IfOk result (λ found. Unites (shown_tables rows) (option_map tables_of found)) }
    ensures block { IfOk result (λ found. IfSome found (λ parts. parts.pointers.block ≡ geo.now.block)) }
{
    let named = are_named(alloc, &rows.names, &rows.files)?;
    if !named {
        return Ok(None);
    }
    let held = HeldTable::of(rows.held);
    if !all_kept(&rows.logs, &held) {
        return Ok(None);
    }
    let logs = LogTable::of(rows.logs);
    if !all_there(&held, &logs) {
        return Ok(None);
    }
    let Some(names) = Names::load(alloc, rows.head.next_file, &rows.names)? else {
        return Ok(None);
    };
    let pointers = pointers_of(alloc, geo, &rows.files)?;
    Ok(Some(Parts {
        names,
        pointers,
        logs,
        held,
        numbers: rows.head.numbers,
    }))
}
