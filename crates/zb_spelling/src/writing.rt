ghost use Rattle.std.specs.Prelude.{◌≡◌, IfOk, OnOk};
ghost use Rattle.zb_tables.specs.Checkpoint.{CountsFit};
ghost use Rattle.zb_spelling.specs.Parts.{put_together};
ghost use Rattle.zb_spelling.specs.Spelling.{spelling_of_tables};

use crate::files::push_files;
use crate::head::push_head;
use crate::listed::push_list;
use crate::logs::push_logs;
use crate::names::push_names;
use crate::parts::Numbers;
use std::alloc::Global;
use zb_log_tables::{HeldTable, LogTable};
use zb_names::Names;
use zb_pointers::Pointers;
use zb_types::{ByteList, Mem, NoMemory};

/// The bytes of the tables with these parts, in as many steps as there are bytes. `NoMemory` also where a list of the
/// tables, or the blocks of a file or the replies of a log, has 2^32 items or more, since its count has four bytes.
pub fn write(
    alloc: Global,
    names: &Names,
    pointers: &Pointers,
    logs: &LogTable,
    held: &HeldTable,
    numbers: &Numbers,
) -> Mem<ByteList>
    ensures text { IfOk result (λ text. text ≡ spelling_of_tables (put_together names.now pointers.now logs.now held.now numbers.now)) }
    ensures counts { OnOk result (CountsFit (put_together names.now pointers.now logs.now held.now numbers.now)) }
{
    let mut text = ByteList::new(alloc)?;
    push_head(alloc, &mut text, names.next(), numbers)?;
    push_names(alloc, &mut text, names)?;
    push_files(alloc, &mut text, pointers)?;
    push_logs(alloc, &mut text, logs)?;
    push_list(alloc, &mut text, held.slice())?;
    Ok(text)
}
