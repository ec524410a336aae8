ghost use Rattle.std.specs.Prelude.{◌≡◌, ◌≤◌, ◌<◌, ◌+◌, ℕ, List, length, take, drop, IsTrue, IfOk};
ghost use Rattle.zb_outside.specs.Counts.{Touches};
ghost use Rattle.zb_types.specs.declared.ids.FragId.{FragId};
ghost use Rattle.zb_slots.specs.Changing.{share_slot};
ghost use Rattle.zb_slots.specs.Slots.{slots_in};
ghost use Rattle.zb_slots.specs.Reading.{LeftAlone, is_stopped};

use crate::body::read_bytes;
use crate::place::place_of;
use crate::read_fault::ReadFault;
use std::alloc::Global;
use zb_outside::Bay;
use zb_types::{ByteList, Geometry};

/// The `len` bytes from `place` on of a slot's body, which are those of the share in it where they lie within the share.
/// Nothing changes.
///
/// `Stopped` comes only where a call of the platter failed, and `NoMemory` where there was no room for the bytes.
pub fn share_bytes<B: Bay>(
    alloc: Global,
    bay: &mut B,
    geo: &Geometry,
    platter: usize,
    slot: u32,
    place: u32,
    len: u32,
) -> Result<ByteList, ReadFault>
    requires platter { platter ≤ 255 }
    requires slot { slot < geo.now.slots }
    requires range { place + len ≤ geo.now.fragment }
    ensures told { IsTrue B.tells → LeftAlone platter (B.meaning bay.old) (B.meaning bay.new) }
    ensures bytes { IsTrue B.tells → IfOk result (λ bytes. (id : FragId) (stands : List ℕ) → slots_in geo.now ((B.meaning bay.old).now.seen platter) slot ≡ share_slot id stands → place + len ≤ length stands → bytes ≡ take len (drop place stands)) }
    ensures size { IfOk result (λ bytes. length bytes ≡ len) }
    ensures touches { Touches B.counts B.follows platter 0 (is_stopped result) bay.old bay.new }
{
    let at = place_of(geo, slot) + 192 + u64::from(place);
    let bytes = read_bytes(alloc, bay, platter, at, len)?;
    Ok(ByteList::of(bytes))
}
