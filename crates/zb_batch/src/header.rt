ghost use Rattle.std.specs.Prelude.{◌≡◌, ◌≤◌, ◌++◌, OnOk, length};
ghost use Rattle.std.specs.Option.{option_map};
ghost use Rattle.zb_numbers.specs.Fronts.{ReadsFront};
ghost use Rattle.zb_numbers.specs.Numbers.{IsBelow};
ghost use Rattle.zb_batch.specs.Reading.{IsHeader, counts_text, numbers_text, header_text};

use std::alloc::Global;
use zb_numbers::{
    append, are_zeros, push_u16, push_u32, push_u64, split_u16, split_u32, split_u64,
};
use zb_types::{ByteList, LogId, Mem, NoMemory};

/// How many bytes the header takes.
pub(crate) const LENGTH: usize = 32;

const FIRST_WORD: [u8; 4] = [90, 66, 66, 84];

/// What stands before the operations: of the batch, how many bytes the meta part takes, and how many operations and
/// deltas there are.
#[derive(Clone, Copy)]
pub(crate) struct Header {
    pub(crate) log: LogId,
    pub(crate) number: u64,
    pub(crate) size: u32,
    pub(crate) ops: u16,
    pub(crate) deltas: u32,
}

// What stands behind the first word.
fn read_numbers(bytes: &[u8]) -> Option<(Header, &[u8])>
    requires { 28 ≤ length bytes.now }
    ensures { ReadsFront IsHeader numbers_text bytes.now
        (option_map (λ found. (found.0, found.1.now)) result) }
{
    let (log, rest) = split_u32(bytes);
    let (number, rest) = split_u64(rest);
    let (size, rest) = split_u32(rest);
    let (ops, rest) = split_u16(rest);
    let (first_zeros, rest) = rest.split_at(2);
    let (deltas, rest) = split_u32(rest);
    let (last_zeros, rest) = rest.split_at(4);
    if !are_zeros(first_zeros) {
        return None;
    }
    if !are_zeros(last_zeros) {
        return None;
    }
    let header = Header {
        log: LogId(log),
        number,
        size,
        ops,
        deltas,
    };
    Some((header, rest))
}

/// The header at the front.
pub(crate) fn read_header(bytes: &[u8]) -> Option<(Header, &[u8])>
    ensures { ReadsFront IsHeader header_text bytes.now
        (option_map (λ found. (found.0, found.1.now)) result) }
{
    if bytes.len() < LENGTH {
        return None;
    }
    let (word, rest) = bytes.split_at(4);
    if word != FIRST_WORD.as_slice() {
        return None;
    }
    read_numbers(rest)
}

fn push_counts(alloc: Global, to: &mut ByteList, header: &Header) -> Mem<()>
    ensures text { OnOk result (to.new ≡ to.old ++ counts_text header.now) }
    ensures ops { OnOk result (IsBelow 2 header.now.ops) }
    ensures deltas { OnOk result (IsBelow 4 header.now.deltas) }
{
    push_u16(alloc, to, header.ops)?;
    append(alloc, to, &[0; 2])?;
    push_u32(alloc, to, header.deltas)?;
    append(alloc, to, &[0; 4])
}

/// Writes a header, or a part of it where memory runs out.
pub(crate) fn push_header(alloc: Global, to: &mut ByteList, header: &Header) -> Mem<()>
    ensures text { OnOk result (to.new ≡ to.old ++ header_text header.now) }
    ensures room { OnOk result (IsHeader header.now) }
{
    append(alloc, to, &FIRST_WORD)?;
    push_u32(alloc, to, header.log.0)?;
    push_u64(alloc, to, header.number)?;
    push_u32(alloc, to, header.size)?;
    push_counts(alloc, to, header)
}
