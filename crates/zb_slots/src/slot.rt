ghost use Rattle.std.specs.Prelude.{is_err, ◌≡◌, ◌≢◌, ◌≤◌, ◌<◌, ◌+◌, ◌-◌, ◌^◌, ◌++◌, ℕ, List, drop, length, IsTrue};
ghost use Rattle.zb_outside.specs.Counts.{Touches};
ghost use Rattle.zb_outside.specs.Runs.{SparesOthers};
ghost use Rattle.zb_slots.specs.Slots.{free_slot, slot_of};
ghost use Rattle.zb_slots.specs.Area.{lengths_in};
ghost use Rattle.zb_slots.specs.Changing.{share_slot, parity_slot, IsReady, SlotTold};
ghost use Rattle.zb_slots.specs.Filling.{MayFill, FillTold};

use crate::header::Header;
use crate::header_cell::set_header;
use zb_outside::{Bay, write_synced};
use zb_types::{Failed, FragId, Geometry};

// Writes bytes behind all that the slot's header counts, and then sets its header.
fn fill<B: Bay>(
    bay: &mut B,
    platter: usize,
    place: u64,
    at: u64,
    bytes: &[u8],
    header: &Header,
) -> Result<(), Failed>
    requires platter { platter ≤ 255 }
    requires range { place + at + length bytes.now ≤ 2 ^ 63 }
    requires cell { 128 ≤ at }
    ensures told { IsTrue B.tells → (n f : ℕ) → IsReady platter place f (B.meaning bay.old).now → MayFill n f place at bytes.now header.now ((B.meaning bay.old).now.seen platter) → FillTold n f platter place at bytes.now header.now result (B.meaning bay.old) (B.meaning bay.new) }
    ensures others { IsTrue B.tells → SparesOthers platter (B.meaning bay.old) (B.meaning bay.new) }
    ensures touches { Touches B.counts B.follows platter 4 (is_err result) bay.old bay.new }
{
    write_synced(bay, platter, place + at, bytes)?;
    set_header(bay, platter, place, header)
}

/// Puts a share into the free slot at this place: the body, and then the header. At each moment the slot is free or holds
/// the whole share, and every other byte stays.
///
/// `Failed` comes only where a call of the platter failed.
pub fn store<B: Bay>(
    bay: &mut B,
    geo: &Geometry,
    platter: usize,
    place: u64,
    id: FragId,
    bytes: &[u8],
) -> Result<(), Failed>
    requires platter { platter ≤ 255 }
    requires range { place + (192 + geo.now.fragment) ≤ 2 ^ 63 }
    requires share { id.index + 1 < geo.now.servers }
    requires room { length bytes.now ≤ geo.now.fragment }
    ensures told { IsTrue B.tells → IsReady platter place geo.now.fragment (B.meaning bay.old).now → slot_of geo.now.servers geo.now.fragment ((B.meaning bay.old).now.seen platter) place ≡ free_slot → SlotTold geo.now.servers geo.now.fragment platter place (share_slot id bytes.now) result (B.meaning bay.old) (B.meaning bay.new) }
    ensures others { IsTrue B.tells → SparesOthers platter (B.meaning bay.old) (B.meaning bay.new) }
    ensures touches { Touches B.counts B.follows platter 4 (is_err result) bay.old bay.new }
{
    let header = Header::Share {
        id,
        len: bytes.len() as u32,
    };
    fill(bay, platter, place, 192, bytes, &header)
}

/// Puts bytes behind those of the share in the slot at this place, whose length is `len`: the bytes, and then the header.
/// At each moment the slot holds the former share or the longer one whole, and every other byte stays.
///
/// `Failed` comes only where a call of the platter failed.
pub fn append<B: Bay>(
    bay: &mut B,
    geo: &Geometry,
    platter: usize,
    place: u64,
    id: FragId,
    len: u32,
    bytes: &[u8],
) -> Result<(), Failed>
    requires platter { platter ≤ 255 }
    requires range { place + (192 + geo.now.fragment) ≤ 2 ^ 63 }
    requires share { id.index + 1 < geo.now.servers }
    requires room { len + length bytes.now ≤ geo.now.fragment }
    ensures told { IsTrue B.tells → IsReady platter place geo.now.fragment (B.meaning bay.old).now → (stands : List ℕ) → length stands ≡ len → slot_of geo.now.servers geo.now.fragment ((B.meaning bay.old).now.seen platter) place ≡ share_slot id stands → SlotTold geo.now.servers geo.now.fragment platter place (share_slot id (stands ++ bytes.now)) result (B.meaning bay.old) (B.meaning bay.new) }
    ensures others { IsTrue B.tells → SparesOthers platter (B.meaning bay.old) (B.meaning bay.new) }
    ensures touches { Touches B.counts B.follows platter 4 (is_err result) bay.old bay.new }
{
    let header = Header::Share {
        id,
        len: len + bytes.len() as u32,
    };
    fill(bay, platter, place, 192 + u64::from(len), bytes, &header)
}

/// Puts a parity into the free slot at this place: its area, which is its lengths in 64 bytes and its body behind them,
/// and then the header. At each moment the slot is free or holds the whole parity, and every other byte stays.
///
/// `Failed` comes only where a call of the platter failed.
pub fn store_parity<B: Bay>(
    bay: &mut B,
    geo: &Geometry,
    platter: usize,
    place: u64,
    id: FragId,
    turn: u8,
    area: &[u8],
) -> Result<(), Failed>
    requires platter { platter ≤ 255 }
    requires range { place + (192 + geo.now.fragment) ≤ 2 ^ 63 }
    requires parity { id.index + 1 ≡ geo.now.servers }
    requires turn { turn < 3 }
    requires lengths { 64 ≤ length area.now }
    requires room { length area.now ≤ 64 + geo.now.fragment }
    ensures told { IsTrue B.tells → IsReady platter place geo.now.fragment (B.meaning bay.old).now → slot_of geo.now.servers geo.now.fragment ((B.meaning bay.old).now.seen platter) place ≡ free_slot → SlotTold geo.now.servers geo.now.fragment platter place (parity_slot id turn (lengths_in (geo.now.servers - 1) area.now) (drop 64 area.now)) result (B.meaning bay.old) (B.meaning bay.new) }
    ensures others { IsTrue B.tells → SparesOthers platter (B.meaning bay.old) (B.meaning bay.new) }
    ensures touches { Touches B.counts B.follows platter 4 (is_err result) bay.old bay.new }
{
    let header = Header::Parity {
        id,
        turn,
        len: (area.len() - 64) as u32,
    };
    fill(bay, platter, place, 128, area, &header)
}

/// Makes the slot at this place free. At each moment it is as before or free, and every other byte stays.
///
/// `Failed` comes only where a call of the platter failed.
pub fn free<B: Bay>(bay: &mut B, geo: &Geometry, platter: usize, place: u64) -> Result<(), Failed>
    requires platter { platter ≤ 255 }
    requires range { place + (192 + geo.now.fragment) ≤ 2 ^ 63 }
    ensures told { IsTrue B.tells → IsReady platter place geo.now.fragment (B.meaning bay.old).now → SlotTold geo.now.servers geo.now.fragment platter place free_slot result (B.meaning bay.old) (B.meaning bay.new) }
    ensures others { IsTrue B.tells → SparesOthers platter (B.meaning bay.old) (B.meaning bay.new) }
    ensures touches { Touches B.counts B.follows platter 3 (is_err result) bay.old bay.new }
{
    set_header(bay, platter, place, &Header::Free)
}
