ghost use Rattle.std.specs.Prelude.{◌≡◌, ◌+◌, ◌<◌, ◌^◌, length, take, drop, slice_index, max, IfOk};
ghost use Rattle.zb_types.specs.Bytes.{byte_over, written, resized};

use crate::lists::ByteList;
use crate::memory::{Mem, NoMemory};
use std::alloc::{AllocError, Global};

// The byte at this place, zero past the end.
fn byte_at(bytes: &[u8], i: usize) -> u8
    ensures { result ≡ slice_index bytes.now i }
{
    bytes.get(i).copied().unwrap_or(0)
}

fn byte_over(old: &[u8], offset: usize, bytes: &[u8], i: usize) -> u8
    requires { offset + length bytes.now < 2 ^ 64 }
    ensures { result ≡ byte_over old.now offset bytes.now i }
{
    if i >= offset && i < offset + bytes.len() {
        return bytes[i - offset];
    }
    byte_at(old, i)
}

fn written(alloc: Global, old: &[u8], offset: usize, bytes: &[u8]) -> Result<Vec<u8>, AllocError>
    requires { offset + length bytes.now < 2 ^ 63 }
    ensures { IfOk result (λ all. all.items ≡ written old.now offset bytes.now) }
{
    let end = old.len().max(offset + bytes.len());
    (0..end)
        .map(|i| byte_over(old, offset, bytes, i))
        .collect(alloc)
}

fn resized(alloc: Global, old: &[u8], n: usize) -> Result<Vec<u8>, AllocError>
    ensures { IfOk result (λ all. all.items ≡ resized old.now n) }
{
    (0..n).map(|i| byte_at(old, i)).collect(alloc)
}

/// The old bytes with these over them from byte `offset` on, after zeros where there is a gap.
pub fn bytes_written(alloc: Global, old: &[u8], offset: usize, bytes: &[u8]) -> Mem<ByteList>
    requires { offset + length bytes.now < 2 ^ 63 }
    ensures { IfOk result (λ all. all ≡ written old.now offset bytes.now) }
{
    Ok(ByteList::of(written(alloc, old, offset, bytes)?))
}

/// The first `n` of the bytes, with zeros behind them where they are fewer.
pub fn bytes_resized(alloc: Global, old: &[u8], n: usize) -> Mem<ByteList>
    ensures { IfOk result (λ all. all ≡ resized old.now n) }
{
    Ok(ByteList::of(resized(alloc, old, n)?))
}

/// The bytes from byte `offset` on, at most `len` of them.
pub fn bytes_from(alloc: Global, bytes: &[u8], offset: usize, len: usize) -> Mem<ByteList>
    ensures { IfOk result (λ list. list ≡ take len (drop offset bytes.now)) }
{
    let (_, rest) = bytes.split_at(offset.min(bytes.len()));
    let (front, _) = rest.split_at(len.min(rest.len()));
    ByteList::from_slice(alloc, front)
}
