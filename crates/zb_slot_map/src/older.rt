ghost use Rattle.std.specs.Prelude.{is_err, ◌*◌, length, ◌≡◌, ◌≢◌, ◌≤◌, ◌<◌, ℕ, All, IsTrue};
ghost use Rattle.zb_outside.specs.Counts.{Touches};
ghost use Rattle.zb_outside.specs.Runs.{IsSettled, SparesOthers};
ghost use Rattle.zb_slot_map.specs.Tidy.{IsSound};
ghost use Rattle.zb_slot_map.specs.Freeing.{HasOlder, FreeTold};

use zb_outside::Bay;
use zb_slots::{free, place_of};
use zb_types::{Failed, Geometry};

/// Frees slots, each of which holds the older of two parities under one name. At each moment the map is as before and no
/// slot is bad; after Ok no name is held twice.
///
/// `Failed` comes only where a call of the platter failed. Then some of the slots may be free.
pub fn free_older<B: Bay>(
    bay: &mut B,
    geo: &Geometry,
    platter: usize,
    older: &[u32],
) -> Result<(), Failed>
    requires platter { platter ≤ 255 }
    requires older { All (λ slot. slot < geo.now.slots) older.now }
    ensures told { IsTrue B.tells → IsSettled platter (B.meaning bay.old).now → IsSound geo.now ((B.meaning bay.old).now.seen platter) → HasOlder geo.now ((B.meaning bay.old).now.seen platter) older.now → FreeTold geo.now platter older.now result (B.meaning bay.old) (B.meaning bay.new) }
    ensures others { IsTrue B.tells → SparesOthers platter (B.meaning bay.old) (B.meaning bay.new) }
    ensures touches { Touches B.counts B.follows platter (3 * length older.now) (is_err result) bay.old bay.new }
{
    for slot in older {
        free(bay, geo, platter, place_of(geo, *slot))?;
    }
    Ok(())
}
