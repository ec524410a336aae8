ghost use Rattle.std.specs.Prelude.{◌≡◌, ◌≤◌, ◌<◌, ◌+◌, ◌^◌};
ghost use Rattle.zb_slots.specs.Slots.{slot_place};

use zb_types::Geometry;

/// Where a slot stands on the platter, in bytes; and where the last slot ends, for the number of slots.
pub fn place_of(geo: &Geometry, slot: u32) -> u64
    requires { slot ≤ geo.now.slots }
    ensures place { result ≡ slot_place geo.now.fragment slot }
    ensures range { result + (192 + geo.now.fragment) ≤ 2 ^ 62 }
{
    128 + u64::from(slot) * (192 + u64::from(geo.fragment))
}
