ghost use Rattle.std.specs.Prelude.{◌≡◌, IfOk};

use std::alloc::Global;
use std::test::Fail;
use zb_devices::MemOutside;
use zb_slot_map::format_at;
use zb_types::{FragId, Geometry, LogId, ServerId};

pub const SHARE: FragId = FragId {
    log: LogId(1),
    stripe: 7,
    index: 1,
};

pub const PARITY: FragId = FragId {
    log: LogId(1),
    stripe: 7,
    index: 2,
};

/// Three servers, eight slots of 256 bytes each.
pub fn system() -> Result<Geometry, Fail>
    ensures servers { IfOk result (λ geo. geo.servers ≡ 3) }
    ensures fragment { IfOk result (λ geo. geo.fragment ≡ 256) }
    ensures slots { IfOk result (λ geo. geo.slots ≡ 8) }
{
    Ok(Geometry::new(3, 1, 256, 64, 8)?)
}

/// The platter of server 3, formatted with fence 1.
pub fn formatted(alloc: Global) -> Result<MemOutside, Fail> {
    let mut bay = MemOutside::new(alloc, b"", b"", &[])?;
    format_at(&mut bay, &system()?, 3, ServerId(3), 1)?;
    Ok(bay)
}
