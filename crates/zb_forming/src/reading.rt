ghost use Rattle.std.specs.Prelude.{◌≡◌, ◌+◌, ◌-◌, ◌*◌, ◌/◌, ◌<◌, ◌≤◌, ◌∷◌, [], true, min, map, slice_get, slice_index, IfOk, All, AllPairs};
ghost use Rattle.std.specs.List.{range_with_len};
ghost use Rattle.std.specs.Option.{option_copied};
ghost use Rattle.zb_types.specs.Apply.{max_file};
ghost use Rattle.zb_types.specs.Keyed.{look};
ghost use Rattle.zb_basis.specs.Looking.{ask_of, room_of, AreFoundFor};
ghost use Rattle.zb_basis.specs.Operations.{block_bytes};
ghost use Rattle.zb_basis.specs.Wanting.{reaches, wanted_by_read, wanted_in, AreFetched, Holds};
ghost use Rattle.zb_basis.specs.Reading.{is_read, IsReadReply};
ghost use Rattle.zb_forming.specs.Drafts.{known};
ghost use Rattle.zb_forming.specs.Ranges.{bytes_in};

use crate::finding::{fetched_at, found_at};
use std::alloc::{AllocError, Global};
use zb_basis::{Basis, Fetched};
use zb_log::PtrList;
use zb_types::{ByteList, Call, Found, Geometry, Mem, NoMemory, Ptr, Refusal, Reply};

/// Whether a block has a byte among those from `from` to before `to`.
fn reaches(block: u32, from: u32, to: u32, entry: &(u32, Ptr)) -> bool
    ensures { result ≡ reaches block from to entry.now }
{
    let (k, ptr) = *entry;
    let start = k as usize * block as usize;
    let low = start.max(from as usize);
    let high = (start + ptr.len as usize).min(to as usize);
    low < high
}

/// The blocks of a file with bytes from `from` to before `to`.
fn wanted_in(alloc: Global, block: u32, from: u32, to: u32, found: &Found) -> Mem<PtrList>
    ensures { IfOk result (λ ptrs. ptrs ≡ wanted_in block from to found.now) }
{
    let mut ptrs = Vec::new(alloc);
    for entry in found.blocks.slice() {
        if reaches(block, from, to, entry) {
            ptrs.push(entry.1)?;
        }
    }
    Ok(PtrList::of(ptrs))
}

/// Where `len` bytes from an offset on end in a file of `length` bytes.
fn end_in(offset: u32, len: u32, length: u32) -> u32
    requires { length ≤ max_file }
    ensures { result ≡ min (offset + len) length }
{
    offset.saturating_add(len).min(length)
}

/// What was found first.
fn first_found(found: &[Found]) -> Option<&Found>
    ensures { option_copied result ≡ slice_get found.now 0 }
{
    match found {
        [] => None,
        [first, ..] => Some(first),
    }
}

/// The old blocks that are wanted for a read, in order: those with bytes in its range, within the file.
pub fn wanted_by_read(alloc: Global, geo: &Geometry, call: &Call, found: &[Found]) -> Mem<PtrList>
    requires { AreFoundFor geo.now.block (room_of geo.now.servers geo.now.fragment) (ask_of geo.now.block call.now ∷ []) found.now }
    ensures exact { IfOk result (λ ptrs. ptrs ≡ wanted_by_read geo.now.block call.now found.now) }

    // Each was found, and lies within its stripe.
    ensures found { IfOk result (All (Holds found.now)) }
    ensures within { IfOk result (All (λ p. p.offset + p.len ≤ room_of geo.now.servers geo.now.fragment)) }
{
    let Call::Read { offset, len, .. } = call else {
        return PtrList::new(alloc);
    };
    let Some(found) = first_found(found) else {
        return PtrList::new(alloc);
    };
    if found.version == 0 {
        return PtrList::new(alloc);
    }
    let from = (*offset).min(found.length);
    let to = end_in(*offset, *len, found.length);
    wanted_in(alloc, geo.block, from, to, found)
}

/// The byte at this place, zero past the end.
fn byte_at(bytes: &[u8], i: usize) -> u8
    ensures { result ≡ slice_index bytes.now i }
{
    bytes.get(i).copied().unwrap_or(0)
}

/// The bytes of a block from `low` to before `high`, with zeros behind its end.
fn bytes_at(alloc: Global, bytes: &[u8], low: usize, high: usize) -> Result<Vec<u8>, AllocError>
    ensures { IfOk result (λ part. part.items ≡ map (slice_index bytes.now) (range_with_len low (high - low))) }
{
    (low..high).map(|i| byte_at(bytes, i)).collect(alloc)
}

/// The bytes of block `k` of a file, none where it stands nowhere.
fn block_at<'a>(found: &Found, fetched: &'a [Fetched], k: u32) -> &'a [u8]
    requires { AllPairs (λ one other. one.0 < other.0) found.now.blocks }
    ensures { result.now ≡ block_bytes (known fetched.now) (look k found.now.blocks) }
{
    match found_at(found, k) {
        Some(ptr) => fetched_at(fetched, ptr),
        None => &[],
    }
}

/// The bytes of a file from `at` to before `end`, which lie in one block.
fn part_of(
    alloc: Global,
    block: u32,
    found: &Found,
    fetched: &[Fetched],
    at: u32,
    end: u32,
) -> Mem<ByteList>
    requires some { 0 < block }
    requires rise { AllPairs (λ one other. one.0 < other.0) found.now.blocks }
    requires order { at ≤ end }
    requires one { end ≤ at / block * block + block }
    ensures { IfOk result (λ part. part ≡ bytes_in block (known fetched.now) found.now at end) }
{
    let old = block_at(found, fetched, at / block);
    let low = (at % block) as usize;
    let part = bytes_at(alloc, old, low, low + (end - at) as usize)?;
    Ok(ByteList::of(part))
}

/// Where the block ends that a byte lies in, or the range.
fn part_end(block: u32, at: u32, to: u32) -> u32
    requires some { 0 < block }
    requires below { at < to }
    ensures one { result ≤ at / block * block + block }
    ensures further { at < result }
    ensures within { result ≤ to }
{
    let room = block - at % block;
    if room < to - at { at + room } else { to }
}

/// The bytes of a file from `from` to before `to`.
fn range_bytes(
    alloc: Global,
    block: u32,
    found: &Found,
    fetched: &[Fetched],
    from: u32,
    to: u32,
) -> Mem<ByteList>
    requires some { 0 < block }
    requires rise { AllPairs (λ one other. one.0 < other.0) found.now.blocks }
    ensures { IfOk result (λ bytes. bytes ≡ bytes_in block (known fetched.now) found.now from to) }
{
    let mut bytes = Vec::new(alloc);
    let mut at = from;
    while at < to {
        let end = part_end(block, at, to);
        let mut part = part_of(alloc, block, found, fetched, at, end)?.into_items();
        bytes.append(&mut part)?;
        at = end;
    }
    Ok(ByteList::of(bytes))
}

/// Answers a read of a file's bytes from what was looked up, once all blocks that are wanted were fetched.
pub fn read_file(alloc: Global, geo: &Geometry, call: &Call, basis: &Basis) -> Mem<Reply>
    requires read { is_read call.now ≡ true }
    requires found { AreFoundFor geo.now.block (room_of geo.now.servers geo.now.fragment) (ask_of geo.now.block call.now ∷ []) basis.now.found }
    requires fetched { AreFetched (wanted_by_read geo.now.block call.now basis.now.found) basis.now.fetched }
    ensures { IfOk result (IsReadReply geo.now.block basis.now call.now) }
{
    let Call::Read { offset, len, .. } = call else {
        unreachable!();
    };
    let Some(found) = first_found(basis.found.slice()) else {
        unreachable!();
    };
    if found.version == 0 {
        return Ok(Reply::Refused(Refusal::Gone));
    }
    let from = (*offset).min(found.length);
    let to = end_in(*offset, *len, found.length);
    let bytes = range_bytes(alloc, geo.block, found, basis.fetched.slice(), from, to)?;
    Ok(Reply::Bytes(bytes))
}
