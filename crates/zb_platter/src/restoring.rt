ghost use Rattle.std.specs.Prelude.{◌≡◌, ◌≤◌, ◌+◌, ◌^◌, ℕ, length, IsTrue, IsErrOf, IfOk};
ghost use Rattle.zb_outside.specs.Counts.{Touches};
ghost use Rattle.zb_ckpt.specs.Reading.{LeftAlone};
ghost use Rattle.zb_ckpt.specs.Says.{Says as SaysRoot, IsForeign};
ghost use Rattle.zb_journal.specs.Journal.{Says};
ghost use Rattle.zb_platter.specs.Faults.{has_stopped};
ghost use Rattle.zb_platter.specs.Reading.{HasBadEntry};
ghost use Rattle.zb_platter.specs.declared.faults.ReadFault.TheVariants as fault;

use crate::faults::ReadFault;
use crate::platter::{LAST, ManagerPlatter};
use std::alloc::Global;
use zb_ckpt::{CkptFault, Root};
use zb_journal::JournalFault;
use zb_outside::Bay;
use zb_types::ByteList;

/// Reads the root of platter 0 and the bytes of its checkpoint. It takes any bytes, and its time grows with the checkpoint's
/// length.
///
/// `Foreign` comes exactly where that field of the root, 1 to 6, is its first wrong one. `Stopped` comes only where a call of
/// the platter failed.
pub fn read_root<B: Bay>(alloc: Global, bay: &mut B) -> Result<(Root, ByteList), ReadFault>
    ensures told { IsTrue B.tells → LeftAlone (B.meaning bay.old) (B.meaning bay.new) }
    ensures says { IsTrue B.tells → IfOk result (λ found. SaysRoot ((B.meaning bay.old).now.seen 0) found.0 found.1) }
    ensures low { IfOk result (λ found. 1 ≤ found.0.first) }
    ensures high { IfOk result (λ found. found.0.first ≤ 2 ^ 48) }
    ensures foreign { IsTrue B.tells → (field : ℕ) → IsErrOf result (fault.Foreign field) → IsForeign ((B.meaning bay.old).now.seen 0) field }
    ensures touches { Touches B.counts B.follows 0 0 (has_stopped result) bay.old bay.new }
{
    let (root, bytes) = match zb_ckpt::read(alloc, bay) {
        Ok(found) => found,
        Err(CkptFault::Foreign { field }) => return Err(ReadFault::Foreign { field }),
        Err(CkptFault::NoMemory) => return Err(ReadFault::NoMemory),
        Err(CkptFault::Stopped) => return Err(ReadFault::Stopped),
    };
    if root.first == 0 || root.first > LAST {
        return Err(ReadFault::Foreign { field: 6 });
    }
    Ok((root, bytes))
}

/// Reads the entries behind the checkpoint of a root that was read of platter 0: what is known of the platter from then on.
/// It takes any bytes, and its time grows with the entries.
///
/// `Foreign`, with field 8, comes exactly where something begins as an entry and is none. `Stopped` comes only where a call of
/// the platter failed.
pub fn read_behind<B: Bay>(
    alloc: Global,
    bay: &mut B,
    root: Root,
) -> Result<ManagerPlatter, ReadFault>
    requires low { 1 ≤ root.first }
    requires high { root.first ≤ 2 ^ 48 }
    ensures told { IsTrue B.tells → LeftAlone (B.meaning bay.old) (B.meaning bay.new) }
    ensures root { IfOk result (λ platter. platter.root ≡ root) }
    ensures number { IfOk result (λ platter. platter.journal.number ≡ root.first + length platter.entries) }
    ensures says { IsTrue B.tells → IfOk result (λ platter. Says ((B.meaning bay.old).now.seen 0) root.first platter.entries platter.journal.place) }
    ensures foreign { IsTrue B.tells → (field : ℕ) → IsErrOf result (fault.Foreign field) → (field ≡ 8) × HasBadEntry ((B.meaning bay.old).now.seen 0) root }
    ensures touches { Touches B.counts B.follows 0 0 (has_stopped result) bay.old bay.new }
{
    let (journal, entries) = match zb_journal::entries(alloc, bay, root.first) {
        Ok(found) => found,
        Err(JournalFault::Bad { .. }) => return Err(ReadFault::Foreign { field: 8 }),
        Err(JournalFault::Stopped) => return Err(ReadFault::Stopped),
        Err(_) => return Err(ReadFault::NoMemory),
    };
    Ok(ManagerPlatter {
        root,
        journal,
        entries: entries.into_items(),
    })
}
