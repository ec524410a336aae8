ghost use Rattle.std.specs.Prelude.{is_err, ◌≡◌, ◌≢◌, ◌≤◌, ℕ, Some, IsTrue, IfOk, MatchOption};
ghost use Rattle.zb_outside.specs.Counts.{Touches};
ghost use Rattle.zb_outside.specs.Runs.{Held};
ghost use Rattle.zb_cell.specs.Cell.{value};
ghost use Rattle.zb_slot_map.specs.Super.{super_text, IsNoneOf, IsOf};

use crate::super_cell::spell_super;
use zb_cell::{CellFault, get};
use zb_outside::Bay;
use zb_slots::u64_at;
use zb_types::{Failed, Geometry, ServerId};

// The fence of a super cell of this server.
fn judge(geo: &Geometry, server: ServerId, payload: &[u8; 40]) -> Option<u64>
    ensures { MatchOption result (IsNoneOf geo.now server.0 payload.now) (λ fence. payload.now ≡ super_text geo.now server.0 fence) }
{
    let fence = u64_at(payload, 24);
    if *payload == spell_super(geo, server, fence) {
        return Some(fence);
    }
    None
}

/// The fence of a platter, or None exactly where its super cell has no value or isn't this server's of this system.
///
/// `Failed` comes only where a call of the platter failed.
pub fn find_fence<B: Bay>(
    bay: &mut B,
    geo: &Geometry,
    platter: usize,
    server: ServerId,
) -> Result<Option<u64>, Failed>
    requires platter { platter ≤ 255 }
    ensures told { IsTrue B.tells → Held platter (B.meaning bay.old) (B.meaning bay.new) }
    ensures found { IsTrue B.tells → IfOk result (λ found. IsOf geo.now server.0 (value ((B.meaning bay.old).now.seen platter) 0) found) }
    ensures touches { Touches B.counts B.follows platter 0 (is_err result) bay.old bay.new }
{
    match get(bay, platter, 0) {
        Ok(payload) => Ok(judge(geo, server, &payload)),
        Err(CellFault::Blank) => Ok(None),
        Err(CellFault::Stopped) => Err(Failed),
    }
}
