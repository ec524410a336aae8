ghost use Rattle.std.specs.Prelude.{◌≡◌, ◌<◌, ◌^◌, ◌↔◌, IfOk, IsTrue, length};
ghost use Rattle.std.specs.List.{flat_map};
ghost use Rattle.std.specs.Option.{option_map};
ghost use Rattle.zb_numbers.specs.Fronts.{ReadsFront};
ghost use Rattle.zb_delta.specs.Spelling.{IsRead, spelling_of_delta};
ghost use Rattle.zb_batch.specs.Spelling.{deltas_text};
ghost use Rattle.zb_batch.specs.Reading.{IsOwned, IsDeltaOf, AreDeltasOf, AreDeltas};

use std::alloc::Global;
use zb_delta::{Delta, DeltaList};
use zb_numbers::split_u32;
use zb_types::{Fid, Mem, NoMemory};

/// Whose deltas an operation has: those of a client's operation on a file at a version, or the cleaner's.
#[derive(Clone, Copy)]
pub(crate) enum Owner {
    Client { fid: Fid, version: u64 },
    Cleaner,
}

pub(crate) fn owns(owner: Owner, delta: &Delta) -> bool
    ensures { IsTrue result ↔ IsOwned owner delta.now }
{
    match (owner, delta) {
        (Owner::Client { fid, version }, Delta::Update(body)) => {
            body.fid == fid && body.version == version
        }
        (Owner::Cleaner, Delta::Clean(_)) => true,
        _ => false,
    }
}

fn read_delta(owner: Owner, bytes: &[u8]) -> Option<(Delta, &[u8])>
    ensures { ReadsFront (IsDeltaOf owner) spelling_of_delta bytes.now
        (option_map (λ found. (found.0, found.1.now)) result) }
{
    let (delta, taken) = Delta::read(bytes)?;
    if !owns(owner, &delta) {
        return None;
    }
    Some((delta, &bytes[taken..]))
}

fn read_many(
    alloc: Global,
    owner: Owner,
    count: u32,
    bytes: &[u8],
) -> Mem<Option<(DeltaList, &[u8])>>
    ensures { IfOk result (λ found.
        ReadsFront (AreDeltasOf owner count) (flat_map spelling_of_delta) bytes.now (option_map (λ f. (f.0, f.1.now)) found)) }
{
    let mut deltas = Vec::new(alloc);
    let mut rest = bytes;
    for _ in 0..count {
        let Some((delta, behind)) = read_delta(owner, rest) else {
            return Ok(None);
        };
        deltas.push(delta)?;
        rest = behind;
    }
    Ok(Some((DeltaList::of(deltas), rest)))
}

/// The deltas of an operation behind their count.
pub(crate) fn read_deltas(
    alloc: Global,
    owner: Owner,
    bytes: &[u8],
) -> Mem<Option<(DeltaList, &[u8])>>
    ensures { IfOk result (λ found.
        ReadsFront (AreDeltas owner) deltas_text bytes.now (option_map (λ f. (f.0, f.1.now)) found)) }
{
    if bytes.len() < 4 {
        return Ok(None);
    }
    let (count, rest) = split_u32(bytes);
    let found = read_many(alloc, owner, count, rest)?;
    Ok(found)
}
