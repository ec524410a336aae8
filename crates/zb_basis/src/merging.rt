ghost use Rattle.std.specs.Prelude.{◌≡◌, ◌*◌, ◌<◌, ◌≤◌, length, IfOk};
ghost use Rattle.zb_basis.specs.Merging.{part_in, written_block, cut_block};

use std::alloc::Global;
use zb_types::{ByteList, Mem, bytes_resized, bytes_written};

/// The bytes of a write at `offset` that fall into block `k`, where a block has room for `block`.
fn part_in(block: u32, k: u32, offset: u32, bytes: &[u8]) -> &[u8]
    ensures part { result.now ≡ part_in block k offset bytes.now }
    ensures short { length result.now ≤ block }
{
    let start = k as usize * block as usize;
    let from = offset as usize;
    let skip = start.saturating_sub(from).min(bytes.len());
    let (_, rest) = bytes.split_at(skip);
    let room = (block as usize).saturating_sub(from.saturating_sub(start));
    let (part, _) = rest.split_at(room.min(rest.len()));
    part
}

/// Block `k` of a file, where it had the bytes `old`, once `bytes` were written at byte `offset` of the file: its part of
/// them over the old ones, after zeros where there is a gap. A block has up to `block` bytes.
pub fn written_block(
    alloc: Global,
    block: u32,
    k: u32,
    old: &[u8],
    offset: u32,
    bytes: &[u8],
) -> Mem<ByteList>
    ensures { IfOk result (λ made. made ≡ written_block block k old.now offset bytes.now) }
{
    let part = part_in(block, k, offset, bytes);
    let from = (offset as usize).saturating_sub(k as usize * block as usize);
    bytes_written(alloc, old, from, part)
}

/// Block `k` of a file, where it had the bytes `old`, once the file was cut to `end` bytes.
pub fn cut_block(alloc: Global, block: u32, k: u32, old: &[u8], end: u32) -> Mem<ByteList>
    ensures { IfOk result (λ made. made ≡ cut_block block k old.now end) }
{
    let start = k as usize * block as usize;
    bytes_resized(alloc, old, (end as usize).saturating_sub(start))
}
