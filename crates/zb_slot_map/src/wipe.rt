ghost use Rattle.std.specs.Prelude.{is_err, ◌≡◌, ◌≤◌, ◌^◌, [], IsTrue};
ghost use Rattle.zb_outside.specs.Counts.{Touches};
ghost use Rattle.zb_slot_map.specs.Zeros.{WipeTold, ZerosTold, pieces};

use zb_outside::Bay;
use zb_types::Failed;

// How many zeros are written at once.
const PIECE: usize = 65536;

// Writes so many zeros at the front of an empty platter, in pieces, none of which is empty.
fn write_zeros<B: Bay>(bay: &mut B, platter: usize, size: u64) -> Result<(), Failed>
    requires platter { platter ≤ 255 }
    requires range { size ≤ 2 ^ 62 }
    ensures told { IsTrue B.tells → (B.meaning bay.old).now.seen platter ≡ [] → ZerosTold platter size result (B.meaning bay.old) (B.meaning bay.new) }
    ensures touches { Touches B.counts B.follows platter (pieces size) (is_err result) bay.old bay.new }
{
    let zeros = [0; PIECE];
    for i in 0..size.div_ceil(PIECE as u64) {
        let at = PIECE as u64 * i;
        let len = (size - at).min(PIECE as u64) as usize;
        let (piece, _) = zeros.split_at(len);
        bay.write_at(platter, at, piece)?;
    }
    Ok(())
}

// Makes the platter so many zeros, for good.
pub fn wipe<B: Bay>(bay: &mut B, platter: usize, size: u64) -> Result<(), Failed>
    requires platter { platter ≤ 255 }
    requires range { size ≤ 2 ^ 62 }
    ensures told { IsTrue B.tells → WipeTold platter size result (B.meaning bay.old) (B.meaning bay.new) }
    ensures touches { Touches B.counts B.follows platter (pieces size) (is_err result) bay.old bay.new }
{
    bay.blank(platter)?;
    write_zeros(bay, platter, size)?;
    bay.sync(platter)
}
