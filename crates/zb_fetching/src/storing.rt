ghost use Rattle.std.specs.Prelude.{◌≡◌, ◌-◌, ◌*◌, ◌<◌, ◌≤◌, All, IfOk, length};
ghost use Rattle.zb_stripe.specs.Fresh.{IsFreshFlush, HasRoom};
ghost use Rattle.zb_fetching.specs.Stores.{first_flush};

use std::alloc::Global;
use zb_stripe::{Fresh, FreshFlush, FreshList, Part};
use zb_types::{ByteList, Geometry, LogId, Mem};

/// What is new of a stripe that begins with these bytes.
pub(crate) fn first_bytes_of(
    alloc: Global,
    geo: &Geometry,
    log: LogId,
    stripe: u64,
    bytes: &[u8],
) -> Mem<FreshFlush>
    requires some { 0 < length bytes.now }
    requires room { length bytes.now ≤ (geo.now.servers - 1) * geo.now.fragment }
    ensures fresh { IfOk result (IsFreshFlush geo.now.servers geo.now.fragment (first_flush log stripe bytes.now)) }
    ensures room { IfOk result (λ fresh. All (HasRoom ((geo.now.servers - 1) * geo.now.fragment)) fresh.parts) }
{
    let part = Part {
        stripe,
        begin: 0,
        bytes: ByteList::from_slice(alloc, bytes)?,
    };
    let mut parts = FreshList::new(alloc)?;
    parts.push(Fresh::of(alloc, geo, &part)?)?;
    Ok(FreshFlush { log, parts })
}
