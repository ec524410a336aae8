ghost use Rattle.std.specs.Prelude.{is_err, ◌≡◌, ◌≤◌, ◌<◌, ◌+◌, ◌^◌, ◌↔◌, ℕ, length, IsTrue, IfOk};
ghost use Rattle.zb_outside.specs.Counts.{Touches};
ghost use Rattle.zb_outside.specs.Ranges.{Reads};
ghost use Rattle.zb_slots.specs.Slots.{Stored, full_slot};
ghost use Rattle.zb_slots.specs.Filling.{body_of};
ghost use Rattle.zb_slots.specs.Slots.{slots_in};
ghost use Rattle.zb_slots.specs.Reading.{LeftAlone};
ghost use Rattle.zb_holding.specs.Rules.{stand_at};

use crate::place::place_of;
use zb_outside::Bay;
use zb_types::{Failed, Geometry};

// How many bytes are compared at once.
const CHUNK: usize = 512;

// Whether these few bytes stand on a platter, from a place on.
fn is_there<B: Bay>(bay: &mut B, platter: usize, place: u64, chunk: &[u8]) -> Result<bool, Failed>
    requires platter { platter ≤ 255 }
    requires range { place + 512 ≤ 2 ^ 63 }
    requires chunk { length chunk.now ≤ 512 }
    ensures told { IsTrue B.tells → LeftAlone platter (B.meaning bay.old) (B.meaning bay.new) }
    ensures same { IsTrue B.tells → IfOk result (λ same. IsTrue same ↔ Reads ((B.meaning bay.old).now.seen platter) place chunk.now) }
    ensures touches { Touches B.counts B.follows platter 0 (is_err result) bay.old bay.new }
{
    let mut buffer = [0; CHUNK];
    bay.read_at(platter, place, &mut buffer)?;
    let (there, _) = buffer.split_at(chunk.len());
    Ok(there == chunk)
}

// Whether these bytes stand on a platter, from a place on.
fn are_there<B: Bay>(bay: &mut B, platter: usize, place: u64, bytes: &[u8]) -> Result<bool, Failed>
    requires platter { platter ≤ 255 }
    requires range { place + length bytes.now + 512 ≤ 2 ^ 63 }
    ensures told { IsTrue B.tells → LeftAlone platter (B.meaning bay.old) (B.meaning bay.new) }
    ensures same { IsTrue B.tells → IfOk result (λ same. IsTrue same ↔ Reads ((B.meaning bay.old).now.seen platter) place bytes.now) }
    ensures touches { Touches B.counts B.follows platter 0 (is_err result) bay.old bay.new }
{
    let mut at = 0;
    while at < bytes.len() {
        let end = bytes.len().min(at + CHUNK);
        if !is_there(bay, platter, place + at as u64, &bytes[at..end])? {
            return Ok(false);
        }
        at = end;
    }
    Ok(true)
}

/// Whether these bytes stand from `place` on in the body of a slot, which has `stored_len` bytes. It takes no memory, and
/// nothing changes.
///
/// `Failed` comes only where a call of the platter failed.
pub fn stands_at<B: Bay>(
    bay: &mut B,
    geo: &Geometry,
    platter: usize,
    slot: u32,
    stored_len: u32,
    place: u32,
    bytes: &[u8],
) -> Result<bool, Failed>
    requires platter { platter ≤ 255 }
    requires slot { slot < geo.now.slots }
    ensures told { IsTrue B.tells → LeftAlone platter (B.meaning bay.old) (B.meaning bay.new) }
    ensures stands { IsTrue B.tells → IfOk result (λ stands. (stored : Stored) → slots_in geo.now ((B.meaning bay.old).now.seen platter) slot ≡ full_slot stored → length (body_of stored.fragment) ≡ stored_len → stands ≡ stand_at (body_of stored.fragment) place bytes.now) }
    ensures touches { Touches B.counts B.follows platter 0 (is_err result) bay.old bay.new }
{
    if u64::from(place) + bytes.len() as u64 > u64::from(stored_len) {
        return Ok(false);
    }
    are_there(
        bay,
        platter,
        place_of(geo, slot) + 192 + u64::from(place),
        bytes,
    )
}
