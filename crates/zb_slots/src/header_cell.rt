ghost use Rattle.std.specs.Prelude.{is_err, ◌≡◌, ◌≢◌, ◌≤◌, ◌+◌, ◌^◌, ℕ, length, IsTrue, IfOk, Some};
ghost use Rattle.zb_outside.specs.Counts.{Touches};
ghost use Rattle.zb_outside.specs.Runs.{IsSettled, Held, SparesOthers};
ghost use Rattle.zb_cell.specs.Cell.{value};
ghost use Rattle.zb_cell.specs.Set.{SetTold};
ghost use Rattle.zb_slots.specs.Headers.{header_text, HasRoom, MayStand};
ghost use Rattle.zb_slots.specs.Slots.{header_in};
ghost use Rattle.zb_slots.specs.declared.header.Header.{Header};

use crate::header::{Header, read_header, spell_header};
use zb_cell::{CellFault, get, set};
use zb_outside::Bay;
use zb_types::{Failed, Geometry};

/// What the header of the slot at this place says: None is a bad header. What is said may stand, whatever the platter
/// holds.
///
/// `Failed` comes only where a call of the platter failed.
pub fn header_at<B: Bay>(
    bay: &mut B,
    geo: &Geometry,
    platter: usize,
    place: u64,
) -> Result<Option<Header>, Failed>
    requires platter { platter ≤ 255 }
    requires range { place + 128 ≤ 2 ^ 63 }
    ensures told { IsTrue B.tells → Held platter (B.meaning bay.old) (B.meaning bay.new) }
    ensures says { IsTrue B.tells → IfOk result (λ says. says ≡ header_in geo.now.servers geo.now.fragment (value ((B.meaning bay.old).now.seen platter) place)) }
    ensures stands { IfOk result (λ says. (header : Header) → says ≡ Some header → MayStand geo.now.servers geo.now.fragment header) }
    ensures touches { Touches B.counts B.follows platter 0 (is_err result) bay.old bay.new }
{
    match get(bay, platter, place) {
        Ok(payload) => Ok(read_header(geo, &payload)),
        Err(CellFault::Blank) => Ok(Some(Header::Free)),
        Err(CellFault::Stopped) => Err(Failed),
    }
}

// Sets the header of the slot at this place.
pub fn set_header<B: Bay>(
    bay: &mut B,
    platter: usize,
    place: u64,
    header: &Header,
) -> Result<(), Failed>
    requires platter { platter ≤ 255 }
    requires range { place + 128 ≤ 2 ^ 63 }
    ensures told { IsTrue B.tells → IsSettled platter (B.meaning bay.old).now → place + 128 ≤ length ((B.meaning bay.old).now.seen platter) → SetTold platter place (header_text header.now) result (B.meaning bay.old) (B.meaning bay.new) }
    ensures room { HasRoom header.now }
    ensures others { IsTrue B.tells → SparesOthers platter (B.meaning bay.old) (B.meaning bay.new) }
    ensures touches { Touches B.counts B.follows platter 3 (is_err result) bay.old bay.new }
{
    let payload = spell_header(header);
    match set(bay, platter, place, &payload) {
        Ok(()) => Ok(()),
        Err(_) => Err(Failed),
    }
}
