ghost use Rattle.std.specs.Prelude.{is_err, ◌≡◌, ◌≤◌, ◌<◌, ◌+◌, Some, None, length, IsTrue};
ghost use Rattle.zb_outside.specs.Counts.{Touches};
ghost use Rattle.zb_outside.specs.Runs.{SparesOthers};
ghost use Rattle.zb_holding.specs.Fragments.{share_fragment};
ghost use Rattle.zb_slots.specs.Slots.{Stored, free_slot, full_slot};
ghost use Rattle.zb_slots.specs.Changing.{share_slot};
ghost use Rattle.zb_slots.specs.Slots.{slots_in};
ghost use Rattle.zb_slots.specs.Holding.{map_of};
ghost use Rattle.zb_slot_map.specs.Tidy.{put};
ghost use Rattle.zb_slot_map.specs.Changing.{IsKept, MapTold, AppendsShare, StoresParity};

use zb_outside::Bay;
use zb_slots::{append, free, place_of, store, store_parity};
use zb_types::{Failed, FragId, Geometry};

/// Stores a share under a name that the map lacks, in a free slot. At each moment the map is as before or has the share.
///
/// `Failed` comes only where a call of the platter failed.
pub fn store_at<B: Bay>(
    bay: &mut B,
    geo: &Geometry,
    platter: usize,
    slot: u32,
    id: FragId,
    bytes: &[u8],
) -> Result<(), Failed>
    requires platter { platter ≤ 255 }
    requires slot { slot < geo.now.slots }
    requires share { id.index + 1 < geo.now.servers }
    requires room { length bytes.now ≤ geo.now.fragment }
    ensures told { IsTrue B.tells → IsKept geo.now platter (B.meaning bay.old).now → let image = (B.meaning bay.old).now.seen platter in slots_in geo.now image slot ≡ free_slot → map_of geo.now image id ≡ None → MapTold geo.now platter slot (share_slot id bytes.now) (put id (Some (share_fragment bytes.now)) (map_of geo.now image)) result (B.meaning bay.old) (B.meaning bay.new) }
    ensures others { IsTrue B.tells → SparesOthers platter (B.meaning bay.old) (B.meaning bay.new) }
    ensures touches { Touches B.counts B.follows platter 4 (is_err result) bay.old bay.new }
{
    store(bay, geo, platter, place_of(geo, slot), id, bytes)
}

/// Puts bytes behind those of the share of this name, whose slot and length the caller knows. At each moment the map is
/// as before or has the longer share.
///
/// `Failed` comes only where a call of the platter failed.
pub fn append_at<B: Bay>(
    bay: &mut B,
    geo: &Geometry,
    platter: usize,
    slot: u32,
    id: FragId,
    len: u32,
    bytes: &[u8],
) -> Result<(), Failed>
    requires platter { platter ≤ 255 }
    requires slot { slot < geo.now.slots }
    requires share { id.index + 1 < geo.now.servers }
    requires room { len + length bytes.now ≤ geo.now.fragment }
    ensures told { IsTrue B.tells → IsKept geo.now platter (B.meaning bay.old).now
        → AppendsShare geo.now platter slot id len bytes.now result (B.meaning bay.old) (B.meaning bay.new) }
    ensures others { IsTrue B.tells → SparesOthers platter (B.meaning bay.old) (B.meaning bay.new) }
    ensures touches { Touches B.counts B.follows platter 4 (is_err result) bay.old bay.new }
{
    append(bay, geo, platter, place_of(geo, slot), id, len, bytes)
}

/// Stores the first parity of a name that the map lacks, in a free slot: its lengths area and its body. At each moment the
/// map is as before or has the parity.
///
/// `Failed` comes only where a call of the platter failed.
pub fn store_parity_at<B: Bay>(
    bay: &mut B,
    geo: &Geometry,
    platter: usize,
    slot: u32,
    id: FragId,
    area: &[u8],
) -> Result<(), Failed>
    requires platter { platter ≤ 255 }
    requires slot { slot < geo.now.slots }
    requires parity { id.index + 1 ≡ geo.now.servers }
    requires lengths { 64 ≤ length area.now }
    requires room { length area.now ≤ 64 + geo.now.fragment }
    ensures told { IsTrue B.tells → IsKept geo.now platter (B.meaning bay.old).now
        → StoresParity geo.now platter slot id area.now result (B.meaning bay.old) (B.meaning bay.new) }
    ensures others { IsTrue B.tells → SparesOthers platter (B.meaning bay.old) (B.meaning bay.new) }
    ensures touches { Touches B.counts B.follows platter 4 (is_err result) bay.old bay.new }
{
    store_parity(bay, geo, platter, place_of(geo, slot), id, 0, area)
}

/// Deletes the fragment in this slot, which the caller knows. At each moment the map is as before or lacks its name.
///
/// `Failed` comes only where a call of the platter failed.
pub fn free_at<B: Bay>(bay: &mut B, geo: &Geometry, platter: usize, slot: u32) -> Result<(), Failed>
    requires platter { platter ≤ 255 }
    requires slot { slot < geo.now.slots }
    ensures told { IsTrue B.tells → IsKept geo.now platter (B.meaning bay.old).now → (stored : Stored) → let image = (B.meaning bay.old).now.seen platter in slots_in geo.now image slot ≡ full_slot stored → MapTold geo.now platter slot free_slot (put stored.id None (map_of geo.now image)) result (B.meaning bay.old) (B.meaning bay.new) }
    ensures others { IsTrue B.tells → SparesOthers platter (B.meaning bay.old) (B.meaning bay.new) }
    ensures touches { Touches B.counts B.follows platter 3 (is_err result) bay.old bay.new }
{
    free(bay, geo, platter, place_of(geo, slot))
}
