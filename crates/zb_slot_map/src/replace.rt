ghost use Rattle.std.specs.Prelude.{is_err, ◌≡◌, ◌≤◌, ◌<◌, ◌+◌, length, IsTrue};
ghost use Rattle.zb_outside.specs.Counts.{Touches};
ghost use Rattle.zb_outside.specs.Runs.{SparesOthers};
ghost use Rattle.zb_slot_map.specs.Changing.{IsKept, ReplacesParity};

use zb_cell::following;
use zb_outside::Bay;
use zb_slots::{free, place_of, store_parity};
use zb_types::{Failed, FragId, Geometry};

/// The slot of a parity, and its turn, 0 to 2.
#[derive(Clone, Copy, Debug, PartialEq, Eq)]
pub struct ParitySlot {
    pub slot: u32,
    pub turn: u8,
}

/// Replaces a parity, whose slot and turn the caller knows, by one in a free slot with the turn that follows, and then
/// frees the former slot. At each moment the map has the former parity or the new one.
///
/// `Failed` comes only where a call of the platter failed.
pub fn replace_parity_at<B: Bay>(
    bay: &mut B,
    geo: &Geometry,
    platter: usize,
    former: ParitySlot,
    slot: u32,
    id: FragId,
    area: &[u8],
) -> Result<(), Failed>
    requires platter { platter ≤ 255 }
    requires former { former.slot < geo.now.slots }
    requires turn { former.turn < 3 }
    requires slot { slot < geo.now.slots }
    requires parity { id.index + 1 ≡ geo.now.servers }
    requires lengths { 64 ≤ length area.now }
    requires room { length area.now ≤ 64 + geo.now.fragment }
    ensures told { IsTrue B.tells → IsKept geo.now platter (B.meaning bay.old).now
        → ReplacesParity geo.now platter former slot id area.now result (B.meaning bay.old) (B.meaning bay.new) }
    ensures others { IsTrue B.tells → SparesOthers platter (B.meaning bay.old) (B.meaning bay.new) }
    ensures touches { Touches B.counts B.follows platter 7 (is_err result) bay.old bay.new }
{
    let turn = following(former.turn);
    store_parity(bay, geo, platter, place_of(geo, slot), id, turn, area)?;
    free(bay, geo, platter, place_of(geo, former.slot))
}
