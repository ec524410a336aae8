ghost use Rattle.std.specs.Prelude.{◌≡◌, ℕ, List, ◌-◌, ◌*◌, All, IfOk};
ghost use Rattle.zb_stripe.specs.Writing.{IsWritable};
ghost use Rattle.zb_stripe.specs.Fresh.{IsFresh, AreFresh, HasRoom};

use crate::parity::grow_parity;
use std::alloc::Global;
use zb_types::{ByteList, Geometry, ItemList, LogId, Mem};

/// All bytes of a stripe so far, of which those from `begin` on are new.
#[derive(Drop)]
pub struct Part {
    pub stripe: u64,
    pub begin: u32,
    pub bytes: ByteList,
}

/// Parts of a flush, in the order in which they are written.
pub type PartList = ItemList<Part>;

/// The new bytes of a log, stripe by stripe, each behind all bytes of its stripe so far.
#[derive(Drop)]
pub struct Flush {
    pub log: LogId,
    pub parts: PartList,
}

/// What is new of a stripe: the bytes behind its first `begin`, and the parity of all its bytes.
#[derive(Drop)]
pub struct Fresh {
    pub stripe: u64,
    pub begin: u32,
    pub bytes: ByteList,
    pub parity: ByteList,
}

/// What is new of some stripes, in the order in which it is written.
pub type FreshList = ItemList<Fresh>;

/// What a flush writes: the new bytes of a log, stripe by stripe, with their parities.
#[derive(Drop)]
pub struct FreshFlush {
    pub log: LogId,
    pub parts: FreshList,
}

impl Fresh {
    /// What is new of a part, with the parity made anew of all its bytes.
    pub fn of(alloc: Global, geo: &Geometry, part: &Part) -> Mem<Fresh>
        requires { IsWritable ((geo.now.servers - 1) * geo.now.fragment) part.now }
        ensures fresh { IfOk result (IsFresh geo.now.servers geo.now.fragment part.now) }
        ensures room { IfOk result (HasRoom ((geo.now.servers - 1) * geo.now.fragment)) }
    {
        let bytes = part.bytes.slice();
        Ok(Fresh {
            stripe: part.stripe,
            begin: part.begin,
            bytes: ByteList::from_slice(alloc, &bytes[part.begin as usize..])?,
            parity: grow_parity(alloc, geo, &[], 0, bytes)?,
        })
    }
}
