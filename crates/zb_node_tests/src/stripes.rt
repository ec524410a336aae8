ghost use Rattle.std.specs.Prelude.{◌≡◌, ◌≤◌, OnOk};
ghost use Rattle.zb_batch.specs.Batches.{IsBatch};

use crate::bench::{Broken, system};
use std::alloc::Global;
use zb_batch::{Batch, Op, OpList};
use zb_fetching::StripeServers;
use zb_types::{ByteList, Call, LogId, Mem, NoMemory, Path, ServerId};

fn path(alloc: Global, text: &[u8]) -> Mem<Path> {
    Path::parse(alloc, text)?.ok_or(NoMemory)
}

/// The batch of log 1 with this number, which makes a directory.
pub fn batch(alloc: Global, number: u64, name: &[u8]) -> Mem<Batch> {
    let mut ops = OpList::new(alloc)?;
    ops.push(Op::Name {
        call: number,
        what: Call::Mkdir(path(alloc, name)?),
    })?;
    Ok(Batch {
        log: LogId(1),
        number,
        ops,
    })
}

/// How many bytes such a batch has.
pub const LONG: u32 = 45;

/// Where batch 2 begins in stripe 0 of log 1: two servers have a part of it.
pub const SECOND: u32 = 240;

/// The bytes of a batch.
pub fn bytes_of(alloc: Global, batch: &Batch) -> Result<ByteList, Broken>
    ensures { OnOk result (1 ≤ batch.now.number → IsBatch batch.now) }
{
    if !batch.is_spellable() {
        return Err(Broken::Refused);
    }
    Ok(batch.write(alloc)?)
}

// One batch at the begin of a stripe, zeros, and the other at its place.
fn both(alloc: Global, first: &[u8], second: &[u8]) -> Mem<ByteList> {
    let mut bytes = Vec::new(alloc);
    bytes.extend_from_slice(first)?;
    bytes.resize(SECOND as usize, 0)?;
    bytes.extend_from_slice(second)?;
    Ok(ByteList::of(bytes))
}

/// The bytes of stripe 0 of log 1, which has batches 1 and 2.
pub fn stripe(alloc: Global) -> Result<ByteList, Broken> {
    let first = bytes_of(alloc, &batch(alloc, 1, b"/a")?)?;
    let second = bytes_of(alloc, &batch(alloc, 2, b"/b")?)?;
    Ok(both(alloc, first.slice(), second.slice())?)
}

/// Servers with stripe 0 of log 1, which has these 1 to 512 bytes. This one doesn't serve.
pub fn holding(
    alloc: Global,
    bytes: &[u8],
    lost: Option<ServerId>,
) -> Result<StripeServers, Broken> {
    let geo = system()?;
    if bytes.is_empty() || bytes.len() > 512 {
        return Err(Broken::Refused);
    }
    let empty = StripeServers::new(alloc, &geo)?;
    let mut servers = empty.store(alloc, LogId(1), 0, bytes)?;
    if let Some(server) = lost {
        servers.lose(server);
    }
    Ok(servers)
}
