ghost use Rattle.std.specs.Prelude.{◌≡◌, ◌<◌, ◌≤◌, ◌^◌, IfOk, IsTrue, length};
ghost use Rattle.std.specs.Option.{option_map};
ghost use Rattle.zb_numbers.specs.Fronts.{ReadsFront};
ghost use Rattle.zb_batch.specs.Spelling.{rest_text, op_text, ops_text};
ghost use Rattle.zb_batch.specs.Batches.{IsOp};
ghost use Rattle.zb_batch.specs.Reading.{IsOpOf, AreOps};

use crate::batch::Op;
use crate::owners::{Owner, read_deltas};
use crate::paths::read_name;
use std::alloc::Global;
use zb_numbers::{split_u32, split_u64};
use zb_types::{Fid, Mem, NoMemory};

fn name_op(alloc: Global, kind: u8, call: u64, bytes: &[u8]) -> Mem<Option<(Op, &[u8])>>
    requires from_one { 1 ≤ kind }
    requires to_four { kind ≤ 4 }
    ensures { IfOk result (λ found.
        ReadsFront (IsOpOf kind call) rest_text bytes.now (option_map (λ f. (f.0, f.1.now)) found)) }
{
    let Some((what, rest)) = read_name(alloc, kind, bytes)? else {
        return Ok(None);
    };
    Ok(Some((Op::Name { call, what }, rest)))
}

fn write_op(alloc: Global, call: u64, bytes: &[u8]) -> Mem<Option<(Op, &[u8])>>
    ensures { IfOk result (λ found.
        ReadsFront (IsOpOf 5 call) rest_text bytes.now (option_map (λ f. (f.0, f.1.now)) found)) }
{
    if bytes.len() < 20 {
        return Ok(None);
    }
    let (fid, rest) = split_u32(bytes);
    let (version, rest) = split_u64(rest);
    let (offset, rest) = split_u32(rest);
    let (len, rest) = split_u32(rest);
    let fid = Fid(fid);
    let Some((deltas, rest)) = read_deltas(alloc, Owner::Client { fid, version }, rest)? else {
        return Ok(None);
    };
    let op = Op::Write {
        call,
        fid,
        version,
        offset,
        len,
        deltas,
    };
    Ok(Some((op, rest)))
}

fn cut_op(alloc: Global, call: u64, bytes: &[u8]) -> Mem<Option<(Op, &[u8])>>
    ensures { IfOk result (λ found.
        ReadsFront (IsOpOf 6 call) rest_text bytes.now (option_map (λ f. (f.0, f.1.now)) found)) }
{
    if bytes.len() < 16 {
        return Ok(None);
    }
    let (fid, rest) = split_u32(bytes);
    let (version, rest) = split_u64(rest);
    let (length, rest) = split_u32(rest);
    let fid = Fid(fid);
    let Some((deltas, rest)) = read_deltas(alloc, Owner::Client { fid, version }, rest)? else {
        return Ok(None);
    };
    if deltas.len() > 1 {
        return Ok(None);
    }
    let op = Op::Cut {
        call,
        fid,
        version,
        length,
        deltas,
    };
    Ok(Some((op, rest)))
}

fn clean_op(alloc: Global, bytes: &[u8]) -> Mem<Option<(Op, &[u8])>>
    ensures { IfOk result (λ found.
        ReadsFront (IsOpOf 8 0) rest_text bytes.now (option_map (λ f. (f.0, f.1.now)) found)) }
{
    let Some((deltas, rest)) = read_deltas(alloc, Owner::Cleaner, bytes)? else {
        return Ok(None);
    };
    Ok(Some((Op::Clean { deltas }, rest)))
}

// The operation of this kind and call.
fn op_of(alloc: Global, kind: u8, call: u64, bytes: &[u8]) -> Mem<Option<(Op, &[u8])>>
    ensures { IfOk result (λ found.
        ReadsFront (IsOpOf kind call) rest_text bytes.now (option_map (λ f. (f.0, f.1.now)) found)) }
{
    match kind {
        1..=4 => name_op(alloc, kind, call, bytes),
        5 => write_op(alloc, call, bytes),
        6 => cut_op(alloc, call, bytes),
        7 => Ok(Some((Op::Sync { call }, bytes))),
        8 if call == 0 => clean_op(alloc, bytes),
        _ => Ok(None),
    }
}

fn read_op(alloc: Global, bytes: &[u8]) -> Mem<Option<(Op, &[u8])>>
    ensures { IfOk result (λ found.
        ReadsFront IsOp op_text bytes.now (option_map (λ f. (f.0, f.1.now)) found)) }
{
    if bytes.len() < 9 {
        return Ok(None);
    }
    let [kind, rest @ ..] = bytes else {
        return Ok(None);
    };
    let (call, rest) = split_u64(rest);
    let found = op_of(alloc, *kind, call, rest)?;
    Ok(found)
}

/// So many operations.
pub(crate) fn read_ops(alloc: Global, count: u16, bytes: &[u8]) -> Mem<Option<(Vec<Op>, &[u8])>>
    ensures { IfOk result (λ found.
        ReadsFront (AreOps count) ops_text bytes.now (option_map (λ f. (f.0.items, f.1.now)) found)) }
{
    let mut ops = Vec::new(alloc);
    let mut rest = bytes;
    for _ in 0..count {
        let Some((op, behind)) = read_op(alloc, rest)? else {
            return Ok(None);
        };
        ops.push(op)?;
        rest = behind;
    }
    Ok(Some((ops, rest)))
}
