ghost use Rattle.std.specs.Prelude.{◌≡◌, IfOk, IfSome};
ghost use Rattle.std.specs.Option.{option_map};
ghost use Rattle.zb_numbers.specs.Fronts.{ReadsFront};
ghost use Rattle.zb_spelling.specs.Spelling.{spelling_of_tables};
ghost use Rattle.zb_spelling.specs.Parts.{tables_of};
ghost use Rattle.zb_spelling.specs.Reading.{HasRoom, shown_tables};
ghost use Rattle.zb_spelling.specs.Unspelling.{Unspells, sizes_of};

use crate::building::build;
use crate::head::read_head;
use crate::limits::are_within;
use crate::listed::read_list;
use crate::parts::Parts;
use crate::rows::{FileRow, Rows};
use std::alloc::Global;
use zb_log_tables::Log;
use zb_names::Entry;
use zb_types::{Geometry, HeldUse, Mem, NoMemory, Path};

// What the front of these bytes spells.
fn read_rows(alloc: Global, bytes: &[u8]) -> Mem<Option<(Rows, &[u8])>>
    ensures { IfOk result (λ found.
        ReadsFront HasRoom spelling_of_tables bytes.now (option_map (λ f. (shown_tables f.0, f.1.now)) found)) }
{
    let Some((head, rest)) = read_head(bytes) else {
        return Ok(None);
    };
    let Some((names, rest)) = read_list::<(Path, Entry)>(alloc, rest)? else {
        return Ok(None);
    };
    let Some((files, rest)) = read_list::<FileRow>(alloc, rest)? else {
        return Ok(None);
    };
    let Some((logs, rest)) = read_list::<Log>(alloc, rest)? else {
        return Ok(None);
    };
    let Some((held, rest)) = read_list::<HeldUse>(alloc, rest)? else {
        return Ok(None);
    };
    let rows = Rows {
        head,
        names,
        files,
        logs,
        held,
    };
    Ok(Some((rows, rest)))
}

/// The parts of the tables that these bytes spell. None exactly where they are no checkpoint of a system of these sizes.
/// It takes as many steps as there are bytes, but for logarithms.
pub fn read(alloc: Global, geo: &Geometry, bytes: &[u8]) -> Mem<Option<Parts>>
    ensures found { IfOk result (λ found. Unspells (sizes_of geo.now) bytes.now (option_map tables_of found)) }
    ensures block { IfOk result (λ found. IfSome found (λ parts. parts.pointers.block ≡ geo.now.block)) }
{
    let Some((rows, rest)) = read_rows(alloc, bytes)? else {
        return Ok(None);
    };
    if !rest.is_empty() {
        return Ok(None);
    }
    if !are_within(geo, &rows) {
        return Ok(None);
    }
    build(alloc, geo, rows)
}
