ghost use Rattle.std.specs.Prelude.{◌≡◌, ◌≤◌, ◌<◌, ◌+◌, ◌-◌, ◌^◌, ◌++◌, ℕ, List, length, take, drop, replicate, slice_index, IsTrue, IfOk};
ghost use Rattle.zb_outside.specs.Counts.{Touches};
ghost use Rattle.zb_types.specs.declared.ids.FragId.{FragId};
ghost use Rattle.zb_cell.specs.Cell.{bytes_at};
ghost use Rattle.zb_slots.specs.Slots.{numbers_at};
ghost use Rattle.zb_slots.specs.Changing.{parity_slot};
ghost use Rattle.zb_slots.specs.Slots.{slots_in};
ghost use Rattle.zb_slots.specs.Reading.{LeftAlone, is_stopped};

use crate::body::read_bytes;
use crate::number::u32_at;
use crate::place::place_of;
use crate::read_fault::ReadFault;
use std::alloc::Global;
use zb_outside::Bay;
use zb_types::{ByteList, Geometry, LenList, Mem};

/// The lengths that a parity covers, one for each share, and a range of its bytes.
#[derive(Drop)]
pub struct ParityRange {
    pub lengths: LenList,
    pub bytes: ByteList,
}

// The first numbers of an area, of four bytes each.
fn numbers_from(alloc: Global, area: &[u8; 64], count: usize) -> Mem<Vec<u32>>
    requires { count ≤ 16 }
    ensures { IfOk result (λ numbers. numbers.items ≡ numbers_at (slice_index area.now) 0 count) }
{
    let mut numbers = Vec::new(alloc);
    for i in 0..count {
        numbers.push(u32_at(area, 4 * i))?;
    }
    Ok(numbers)
}

// The lengths in the area of the slot at this place.
fn read_lengths<B: Bay>(
    alloc: Global,
    bay: &mut B,
    geo: &Geometry,
    platter: usize,
    place: u64,
) -> Result<Vec<u32>, ReadFault>
    requires platter { platter ≤ 255 }
    requires range { place + 192 ≤ 2 ^ 63 }
    ensures told { IsTrue B.tells → LeftAlone platter (B.meaning bay.old) (B.meaning bay.new) }
    ensures lengths { IsTrue B.tells → IfOk result (λ lengths. lengths.items ≡ numbers_at (bytes_at ((B.meaning bay.old).now.seen platter) place) 128 (geo.now.servers - 1)) }
    ensures count { IfOk result (λ lengths. length lengths.items ≡ geo.now.servers - 1) }
    ensures touches { Touches B.counts B.follows platter 0 (is_stopped result) bay.old bay.new }
{
    let mut area = [0; 64];
    bay.read_at(platter, place + 128, &mut area)?;
    Ok(numbers_from(alloc, &area, geo.servers as usize - 1)?)
}

// So many bytes of a platter from a place on, with zeros behind the first `there`.
fn read_padded<B: Bay>(
    alloc: Global,
    bay: &mut B,
    platter: usize,
    at: u64,
    there: u32,
    len: u32,
) -> Result<Vec<u8>, ReadFault>
    requires platter { platter ≤ 255 }
    requires range { at + there ≤ 2 ^ 63 }
    requires there { there ≤ len }
    ensures told { IsTrue B.tells → LeftAlone platter (B.meaning bay.old) (B.meaning bay.new) }
    ensures read { IsTrue B.tells → IfOk result (λ bytes. (i : ℕ) → i < there → slice_index bytes.items i ≡ slice_index ((B.meaning bay.old).now.seen platter) (at + i)) }
    ensures zeros { IfOk result (λ bytes. (i : ℕ) → there ≤ i → slice_index bytes.items i ≡ 0) }
    ensures size { IfOk result (λ bytes. length bytes.items ≡ len) }
    ensures touches { Touches B.counts B.follows platter 0 (is_stopped result) bay.old bay.new }
{
    let mut bytes = read_bytes(alloc, bay, platter, at, there)?;
    bytes.resize(len as usize, 0)?;
    Ok(bytes)
}

/// What a slot has of a parity of `stored_len` bytes: the lengths that it covers, one for each share, and its `len` bytes
/// from `place` on, with zeros past its end. Nothing changes.
///
/// `Stopped` comes only where a call of the platter failed, and `NoMemory` where there was no room for the lengths and
/// the bytes.
pub fn parity_range<B: Bay>(
    alloc: Global,
    bay: &mut B,
    geo: &Geometry,
    platter: usize,
    slot: u32,
    stored_len: u32,
    place: u32,
    len: u32,
) -> Result<ParityRange, ReadFault>
    requires platter { platter ≤ 255 }
    requires slot { slot < geo.now.slots }
    ensures told { IsTrue B.tells → LeftAlone platter (B.meaning bay.old) (B.meaning bay.new) }
    ensures lengths { IsTrue B.tells → IfOk result (λ range. (id : FragId) (turn : ℕ) (lengths stands : List ℕ) → slots_in geo.now ((B.meaning bay.old).now.seen platter) slot ≡ parity_slot id turn lengths stands → range.lengths ≡ lengths) }
    ensures bytes { IsTrue B.tells → IfOk result (λ range. (id : FragId) (turn : ℕ) (lengths stands : List ℕ) → slots_in geo.now ((B.meaning bay.old).now.seen platter) slot ≡ parity_slot id turn lengths stands → length stands ≡ stored_len → range.bytes ≡ take len (drop place stands ++ replicate len 0)) }
    ensures count { IfOk result (λ range. length range.lengths ≡ geo.now.servers - 1) }
    ensures size { IfOk result (λ range. length range.bytes ≡ len) }
    ensures touches { Touches B.counts B.follows platter 0 (is_stopped result) bay.old bay.new }
{
    let at = place_of(geo, slot);
    let there = stored_len.saturating_sub(place).min(len);
    let lengths = read_lengths(alloc, bay, geo, platter, at)?;
    let bytes = read_padded(alloc, bay, platter, at + 192 + u64::from(place), there, len)?;
    Ok(ParityRange {
        lengths: LenList::of(lengths),
        bytes: ByteList::of(bytes),
    })
}
