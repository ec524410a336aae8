ghost use Rattle.std.specs.Prelude.{◌≡◌, ◌+◌, ◌<◌, ◌≤◌, ◌^◌};
ghost use Rattle.zb_basis.specs.Looking.{ask_range, end_of, ask_of};

use zb_types::{Call, Fid, MAX_FILE};

/// The most bytes of a file.
const MOST_BYTES: u32 = MAX_FILE as u32;

/// What a lookup is asked of a file: its version and length, and the pointers of `count` blocks from block `first` on.
/// A call that names no file asks for file 0, which there never is.
#[derive(Clone, Copy, Debug, PartialEq, Eq)]
pub struct Ask {
    pub fid: Fid,
    pub first: u32,
    pub count: u32,
}

/// The blocks that the bytes from `from` to before `to` lie in.
fn ask_range(block: u32, fid: Fid, from: u32, to: u32) -> Ask
    requires some { 0 < block }
    ensures exact { result ≡ ask_range block fid from to }
    ensures small { result.first + result.count ≤ to }
{
    if from >= to {
        return Ask {
            fid,
            first: 0,
            count: 0,
        };
    }
    let first = from / block;
    Ask {
        fid,
        first,
        count: (to - 1) / block - first + 1,
    }
}

/// Where a range of `len` bytes at `offset` ends, none where it would end behind the last byte that a file may have.
pub fn end_of(offset: u32, len: usize) -> Option<u32>
    ensures { result ≡ end_of offset len }
{
    if offset <= MOST_BYTES && len <= (MOST_BYTES - offset) as usize {
        Some(offset + len as u32)
    } else {
        None
    }
}

/// What is asked for a call, where a block has up to `block` bytes: the blocks that a write touches, the block that a
/// truncation ends in, and the blocks of a read.
pub fn ask_of(block: u32, call: &Call) -> Ask
    requires { 0 < block }
    ensures exact { result ≡ ask_of block call.now }
    ensures small { result.first + result.count < 2 ^ 32 }
{
    match call {
        Call::Write { fid, offset, bytes } => match end_of(*offset, bytes.len()) {
            Some(end) => ask_range(block, *fid, *offset, end),
            None => ask_range(block, *fid, 0, 0),
        },
        Call::Truncate { fid, length } => ask_range(
            block,
            *fid,
            *length - *length % block,
            *length,
        ),
        Call::Read { fid, offset, len } => {
            let end = offset.saturating_add(*len).min(MOST_BYTES);
            ask_range(block, *fid, *offset, end)
        }
        _ => ask_range(block, Fid(0), 0, 0),
    }
}
