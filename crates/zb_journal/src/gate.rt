ghost use Rattle.std.specs.Prelude.{◌≡◌, ◌≤◌, ◌+◌, ◌^◌, ◌==◌, if◌then◌else◌, true, IsTrue, OnOk, is_err, length};
ghost use Rattle.zb_outside.specs.Counts.{Touches, HasWritten, raised_by};
ghost use Rattle.zb_outside.specs.Runs.{SparesOthers};
ghost use Rattle.zb_cell.specs.Set.{CloseTold, IsReady};
ghost use Rattle.zb_journal.specs.Putting.{PutReady, PutTold, writes_at};

use zb_outside::{Bay, write_synced};
use zb_types::Failed;

// Closes the gate at this place of platter 0 where it is open.
fn close_gate<B: Bay>(bay: &mut B, place: u64, is_open: bool) -> Result<(), Failed>
    requires range { place + 1 ≤ 2 ^ 63 }
    ensures told { IsTrue B.tells → IsReady 0 place is_open (B.meaning bay.old).now → CloseTold 0 place result (B.meaning bay.old) (B.meaning bay.new) }
    ensures others { IsTrue B.tells → SparesOthers 0 (B.meaning bay.old) (B.meaning bay.new) }
    ensures touches { Touches B.counts B.follows 0 1 (is_err result) bay.old bay.new }
    ensures written { HasWritten 0 (if is_open then 1 else 0) (B.counts bay.old) (B.counts bay.new) }
{
    if !is_open {
        return Ok(());
    }
    write_synced(bay, 0, place, &[0])
}

/// Writes these bytes behind the gate at this place of platter 0, which is closed before where it is open, and then
/// opens it.
///
/// `Failed` comes only where a call of the platter failed.
pub(crate) fn put<B: Bay>(bay: &mut B, place: u64, bytes: &[u8]) -> Result<(), Failed>
    requires range { place + 1 + length bytes.now ≤ 2 ^ 63 }
    ensures told { IsTrue B.tells → PutReady place bytes.now (B.meaning bay.old).now → PutTold place bytes.now result (B.meaning bay.old) (B.meaning bay.new) }
    ensures others { IsTrue B.tells → SparesOthers 0 (B.meaning bay.old) (B.meaning bay.new) }
    ensures touches { Touches B.counts B.follows 0 3 (is_err result) bay.old bay.new }
    ensures written { IsTrue B.tells → OnOk result (HasWritten 0 (writes_at ((B.meaning bay.old).now.seen 0) place) (B.counts bay.old) (B.counts bay.new)) }
    ensures least { OnOk result (raised_by 2 ((B.counts bay.old).writes 0) ≤ (B.counts bay.new).writes 0) }
{
    let mut gate = [0; 1];
    bay.read_at(0, place, &mut gate)?;
    close_gate(bay, place, gate[0] == 1)?;
    write_synced(bay, 0, place + 1, bytes)?;
    write_synced(bay, 0, place, &[1])
}
