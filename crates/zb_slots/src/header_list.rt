ghost use Rattle.std.specs.Prelude.{◌≡◌, ◌≤◌, ℕ, length, IsTrue, IfOk};
ghost use Rattle.zb_outside.specs.Counts.{Touches};
ghost use Rattle.zb_slots.specs.Reading.{LeftAlone, is_stopped};
ghost use Rattle.zb_slots.specs.Showing.{AreShown, AllMayStand};

use crate::header::Header;
use crate::header_cell::header_at;
use crate::place::place_of;
use crate::read_fault::ReadFault;
use std::alloc::Global;
use zb_outside::Bay;
use zb_types::Geometry;

/// What the header of each slot says, in order: None is a bad header. What is said may stand, whatever the platter holds.
/// Nothing changes.
///
/// `Stopped` comes only where a call of the platter failed, and `NoMemory` where there was no room for the headers.
pub fn headers<B: Bay>(
    alloc: Global,
    bay: &mut B,
    geo: &Geometry,
    platter: usize,
) -> Result<Vec<Option<Header>>, ReadFault>
    requires platter { platter ≤ 255 }
    ensures told { IsTrue B.tells → LeftAlone platter (B.meaning bay.old) (B.meaning bay.new) }
    ensures shown { IsTrue B.tells → IfOk result (λ headers. AreShown geo.now ((B.meaning bay.old).now.seen platter) headers.items) }
    ensures count { IfOk result (λ headers. length headers.items ≡ geo.now.slots) }
    ensures stand { IfOk result (λ headers. AllMayStand geo.now.servers geo.now.fragment headers.items) }
    ensures touches { Touches B.counts B.follows platter 0 (is_stopped result) bay.old bay.new }
{
    let mut headers = Vec::with_capacity(alloc, geo.slots as usize)?;
    for slot in 0..geo.slots {
        let says = header_at(bay, geo, platter, place_of(geo, slot))?;
        headers.push(says)?;
    }
    Ok(headers)
}
