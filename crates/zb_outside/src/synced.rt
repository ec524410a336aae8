ghost use Rattle.std.specs.Prelude.{◌≡◌, ◌≤◌, ◌+◌, ◌^◌, IsTrue, is_err, length};
ghost use Rattle.zb_outside.specs.Platters.{WriteSyncedTold};
ghost use Rattle.zb_outside.specs.Counts.{Touches, HasWritten};
ghost use Rattle.zb_outside.specs.Runs.{IsSettled, SparesOthers};

use crate::bay::Bay;
use zb_types::Failed;

/// Writes the bytes from that place on and syncs them, at a platter with no unsynced write. The layers above write in
/// no other way.
///
/// `Failed` comes only where a call of the platter failed. Then the range may hold any bytes. The other platters are as
/// before at each moment, whatever this one holds.
pub fn write_synced<B: Bay>(
    bay: &mut B,
    platter: usize,
    place: u64,
    bytes: &[u8],
) -> Result<(), Failed>
    requires platter { platter ≤ 255 }
    requires range { place + length bytes.now ≤ 2 ^ 63 }
    ensures told { IsTrue B.tells → IsSettled platter (B.meaning bay.old).now → WriteSyncedTold platter place bytes.now result (B.meaning bay.old) (B.meaning bay.new) }
    ensures others { IsTrue B.tells → SparesOthers platter (B.meaning bay.old) (B.meaning bay.new) }
    ensures touches { Touches B.counts B.follows platter 1 (is_err result) bay.old bay.new }
    ensures written { HasWritten platter 1 (B.counts bay.old) (B.counts bay.new) }
{
    bay.write_at(platter, place, bytes)?;
    bay.sync(platter)
}
