ghost use Rattle.std.specs.Prelude.{◌≡◌, ◌≤◌, ◌+◌, ◌^◌, ℕ, length, IsTrue, IsErrOf, IfOk, OnOk, Some, is_err};
ghost use Rattle.zb_outside.specs.Counts.{Touches, HasWritten};
ghost use Rattle.zb_outside.specs.Runs.{IsSettled, SparesOthers};
ghost use Rattle.zb_cell.specs.Cell.{bytes_at, value, writes_for};
ghost use Rattle.zb_cell.specs.Set.{SetTold};
ghost use Rattle.zb_ckpt.specs.Root.{IsRoot, root_text};
ghost use Rattle.zb_ckpt.specs.Says.{Says, IsForeign, pages_of};
ghost use Rattle.zb_ckpt.specs.Write.{WriteTold, next_root, other_slot};
ghost use Rattle.zb_ckpt.specs.Reading.{LeftAlone};
ghost use Rattle.zb_ckpt.specs.Faults.{is_stopped};
ghost use Rattle.zb_ckpt.specs.declared.faults.CkptFault.TheVariants as fault;

use crate::faults::CkptFault;
use crate::filling::fill;
use crate::numbers::{root_in, spelled};
use crate::reading::read_pages;
use crate::root::Root;
use std::alloc::Global;
use zb_cell::{CellFault, get, set};
use zb_outside::Bay;
use zb_types::{ByteList, Failed};

// The slot that isn't this one.
fn other_slot(slot: u8) -> u8
    ensures { result ≡ other_slot slot }
{
    if slot == 0 {
        return 1;
    }
    0
}

// Sets the root cell.
fn set_root<B: Bay>(bay: &mut B, root: &Root) -> Result<(), Failed>
    ensures told { IsTrue B.tells → IsSettled 0 (B.meaning bay.old).now → 128 ≤ length ((B.meaning bay.old).now.seen 0) → SetTold 0 0 (root_text root.now) result (B.meaning bay.old) (B.meaning bay.new) }
    ensures others { IsTrue B.tells → SparesOthers 0 (B.meaning bay.old) (B.meaning bay.new) }
    ensures touches { Touches B.counts B.follows 0 3 (is_err result) bay.old bay.new }
    ensures written { IsTrue B.tells → OnOk result (HasWritten 0 (writes_for (bytes_at ((B.meaning bay.old).now.seen 0) 0)) (B.counts bay.old) (B.counts bay.new)) }
{
    let payload = spelled(root);
    match set(bay, 0, 0, &payload) {
        Ok(()) => Ok(()),
        Err(_) => Err(Failed),
    }
}

/// Writes at most 2^40 bytes as a checkpoint into the slot of platter 0 that the root doesn't name, and then the root cell.
/// The new root names that slot, and keeps the system and the number of the given one, which is from 1 to 2^48.
///
/// Where no write of the platter is unsynced and the root cell lies within it, it has at each moment the former root and the
/// checkpoint that it names in the given root's slot, or the new root and these bytes, and all between the root cell and the
/// pages stays. After Ok it has the new root, with nothing unsynced. It takes a write for each page of 65,536 bytes, and
/// those of the cell. The other platters are as before at each moment, whatever this one holds.
///
/// `Stopped` comes only where a call of the platter failed, and no other refusal comes.
pub fn write<B: Bay>(bay: &mut B, root: &Root, bytes: &ByteList) -> Result<Root, CkptFault>
    requires size { length bytes.now ≤ 2 ^ 40 }
    requires low { 1 ≤ root.now.first }
    requires high { root.now.first ≤ 2 ^ 48 }
    ensures told { IsTrue B.tells → IsSettled 0 (B.meaning bay.old).now → 128 ≤ length ((B.meaning bay.old).now.seen 0) → WriteTold root.now.slot (next_root root.now bytes.now) bytes.now result (B.meaning bay.old) (B.meaning bay.new) }
    ensures root { IfOk result (λ new. new ≡ next_root root.now bytes.now) }
    ensures foreign { (field : ℕ) → IsErrOf result (fault.Foreign field) → ⊥ }
    ensures memory { IsErrOf result fault.NoMemory → ⊥ }
    ensures others { IsTrue B.tells → SparesOthers 0 (B.meaning bay.old) (B.meaning bay.new) }
    ensures touches { Touches B.counts B.follows 0 (pages_of (length bytes.now) + 3) (is_stopped result) bay.old bay.new }
    ensures written { IsTrue B.tells → 128 ≤ length ((B.meaning bay.old).now.seen 0) → IsSettled 0 (B.meaning bay.old).now → OnOk result (HasWritten 0 (pages_of (length bytes.now) + writes_for (bytes_at ((B.meaning bay.old).now.seen 0) 0)) (B.counts bay.old) (B.counts bay.new)) }
{
    let slot = other_slot(root.slot);
    fill(bay, slot, bytes.slice())?;
    let new = Root {
        slot,
        length: bytes.len() as u64,
        ..*root
    };
    set_root(bay, &new)?;
    Ok(new)
}

// The root of platter 0.
fn root_at<B: Bay>(bay: &mut B) -> Result<Root, CkptFault>
    ensures told { IsTrue B.tells → LeftAlone (B.meaning bay.old) (B.meaning bay.new) }
    ensures cell { IsTrue B.tells → IfOk result (λ root. value ((B.meaning bay.old).now.seen 0) 0 ≡ Some (root_text root)) }
    ensures is { IfOk result IsRoot }
    ensures foreign { IsTrue B.tells → (field : ℕ) → IsErrOf result (fault.Foreign field) → IsForeign ((B.meaning bay.old).now.seen 0) field }
    ensures memory { IsErrOf result fault.NoMemory → ⊥ }
    ensures touches { Touches B.counts B.follows 0 0 (is_stopped result) bay.old bay.new }
{
    match get(bay, 0, 0) {
        Ok(payload) => root_in(&payload),
        Err(CellFault::Blank) => Err(CkptFault::Foreign { field: 1 }),
        Err(CellFault::Stopped) => Err(CkptFault::Stopped),
    }
}

/// The root that platter 0 says, and the bytes of its checkpoint. It takes any bytes, and its time grows with the
/// checkpoint's length.
///
/// `Foreign` comes exactly where the root cell has no value, with field 1, or its first wrong field is that one, and
/// `Stopped` only where a call of the platter failed.
pub fn read<B: Bay>(alloc: Global, bay: &mut B) -> Result<(Root, ByteList), CkptFault>
    ensures told { IsTrue B.tells → LeftAlone (B.meaning bay.old) (B.meaning bay.new) }
    ensures says { IsTrue B.tells → IfOk result (λ found. Says ((B.meaning bay.old).now.seen 0) found.0 found.1) }
    ensures foreign { IsTrue B.tells → (field : ℕ) → IsErrOf result (fault.Foreign field) → IsForeign ((B.meaning bay.old).now.seen 0) field }
    ensures touches { Touches B.counts B.follows 0 0 (is_stopped result) bay.old bay.new }
{
    let root = root_at(bay)?;
    let bytes = read_pages(alloc, bay, root.slot, root.length as usize)?;
    Ok((root, ByteList::of(bytes)))
}
