ghost use Rattle.std.specs.Prelude.{is_err, ◌≡◌, ◌≢◌, ◌≤◌, ◌+◌, ◌^◌, ℕ, length, IsTrue};
ghost use Rattle.zb_outside.specs.Counts.{Touches};
ghost use Rattle.zb_outside.specs.Runs.{IsSettled, SparesOthers};
ghost use Rattle.zb_cell.specs.Set.{SetTold};
ghost use Rattle.zb_slot_map.specs.Changing.{IsKept};
ghost use Rattle.zb_slots.specs.Slots.{slot_place};
ghost use Rattle.zb_slot_map.specs.Zeros.{pieces};
ghost use Rattle.zb_slot_map.specs.Super.{super_text, FenceTold, FormatTold};

use crate::wipe::wipe;
use zb_cell::set;
use zb_outside::Bay;
use zb_slots::place_of;
use zb_types::{Failed, Geometry, ServerId};

// The payload of the super cell.
pub fn spell_super(geo: &Geometry, server: ServerId, fence: u64) -> [u8; 40]
    ensures { result ≡ super_text geo.now server.0 fence }
{
    let fragment = geo.fragment.to_be_bytes();
    let block = geo.block.to_be_bytes();
    let slots = geo.slots.to_be_bytes();
    let number = fence.to_be_bytes();
    [
        90,
        66,
        82,
        83,
        0,
        0,
        0,
        1,
        server.0,
        geo.servers as u8,
        0,
        0,
        fragment[0],
        fragment[1],
        fragment[2],
        fragment[3],
        block[0],
        block[1],
        block[2],
        block[3],
        slots[0],
        slots[1],
        slots[2],
        slots[3],
        number[0],
        number[1],
        number[2],
        number[3],
        number[4],
        number[5],
        number[6],
        number[7],
        0,
        0,
        0,
        0,
        0,
        0,
        0,
        0,
    ]
}

// Sets the super cell.
fn set_super<B: Bay>(
    bay: &mut B,
    geo: &Geometry,
    platter: usize,
    server: ServerId,
    fence: u64,
) -> Result<(), Failed>
    requires platter { platter ≤ 255 }
    ensures told { IsTrue B.tells → IsSettled platter (B.meaning bay.old).now → 128 ≤ length ((B.meaning bay.old).now.seen platter) → SetTold platter 0 (super_text geo.now server.0 fence) result (B.meaning bay.old) (B.meaning bay.new) }
    ensures others { IsTrue B.tells → SparesOthers platter (B.meaning bay.old) (B.meaning bay.new) }
    ensures touches { Touches B.counts B.follows platter 3 (is_err result) bay.old bay.new }
{
    let payload = spell_super(geo, server, fence);
    match set(bay, platter, 0, &payload) {
        Ok(()) => Ok(()),
        Err(_) => Err(Failed),
    }
}

/// Sets the fence of a server's platter. At each moment it has the former fence or this one, and the map is as before.
///
/// `Failed` comes only where a call of the platter failed.
pub fn fence_at<B: Bay>(
    bay: &mut B,
    geo: &Geometry,
    platter: usize,
    server: ServerId,
    fence: u64,
) -> Result<(), Failed>
    requires platter { platter ≤ 255 }
    ensures told { IsTrue B.tells → IsKept geo.now platter (B.meaning bay.old).now → FenceTold geo.now platter (super_text geo.now server.0 fence) result (B.meaning bay.old) (B.meaning bay.new) }
    ensures others { IsTrue B.tells → SparesOthers platter (B.meaning bay.old) (B.meaning bay.new) }
    ensures touches { Touches B.counts B.follows platter 3 (is_err result) bay.old bay.new }
{
    set_super(bay, geo, platter, server, fence)
}

/// Makes a platter anew for this server, with no fragment and this fence: it is blanked, zeros are written over all of
/// it, and its super cell is set.
///
/// `Failed` comes only where a call of the platter failed.
pub fn format_at<B: Bay>(
    bay: &mut B,
    geo: &Geometry,
    platter: usize,
    server: ServerId,
    fence: u64,
) -> Result<(), Failed>
    requires platter { platter ≤ 255 }
    ensures told { IsTrue B.tells → FormatTold geo.now platter (super_text geo.now server.0 fence) result (B.meaning bay.old) (B.meaning bay.new) }
    ensures touches { Touches B.counts B.follows platter (pieces (slot_place geo.now.fragment geo.now.slots) + 3) (is_err result) bay.old bay.new }
{
    wipe(bay, platter, place_of(geo, geo.slots))?;
    set_super(bay, geo, platter, server, fence)
}
