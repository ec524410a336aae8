ghost use Rattle.std.specs.Prelude.{◌≡◌, ◌<◌, ◌^◌, ◌++◌, OnOk, length, sum_by};
ghost use Rattle.std.specs.List.{flat_map, AllByRecursion};
ghost use Rattle.zb_numbers.specs.Numbers.{IsBelow};
ghost use Rattle.zb_delta.specs.Spelling.{spelling_of_delta, IsDelta};
ghost use Rattle.zb_batch.specs.Batches.{HasAllRoom};
ghost use Rattle.zb_batch.specs.Spelling.{kind_of, call_of, rest_text, op_text, ops_text, deltas_text, deltas_of};
ghost use Rattle.zb_batch.specs.Reading.{op_length};

use crate::batch::Op;
use crate::paths::{kind_of_name, push_paths};
use std::alloc::Global;
use zb_delta::Delta;
use zb_numbers::{push_u32, push_u64};
use zb_types::{ByteList, Mem, NoMemory};

fn push_all(alloc: Global, to: &mut ByteList, deltas: &[Delta]) -> Mem<()>
    ensures text { OnOk result (to.new ≡ to.old ++ flat_map spelling_of_delta deltas.now) }
    ensures room { OnOk result (AllByRecursion IsDelta deltas.now) }
{
    for delta in deltas {
        delta.write(alloc, to)?;
    }
    Ok(())
}

// Writes deltas behind their count.
fn push_deltas(alloc: Global, to: &mut ByteList, deltas: &[Delta]) -> Mem<()>
    requires { length deltas.now < 2 ^ 32 }
    ensures text { OnOk result (to.new ≡ to.old ++ deltas_text deltas.now) }
    ensures room { OnOk result (AllByRecursion IsDelta deltas.now) }
{
    push_u32(alloc, to, deltas.len() as u32)?;
    push_all(alloc, to, deltas)
}

// The number of its kind, and that of its call.
fn kind_and_call(op: &Op) -> (u8, u64)
    ensures kind { result.0 ≡ kind_of op.now }
    ensures call { result.1 ≡ call_of op.now }
{
    match op {
        Op::Name { call, what } => (kind_of_name(what), *call),
        Op::Write { call, .. } => (5, *call),
        Op::Cut { call, .. } => (6, *call),
        Op::Sync { call } => (7, *call),
        Op::Clean { .. } => (8, 0),
    }
}

// Writes what stands behind the kind and the call.
fn push_rest(alloc: Global, to: &mut ByteList, op: &Op) -> Mem<()>
    requires { length (deltas_of op.now) < 2 ^ 32 }
    ensures text { OnOk result (to.new ≡ to.old ++ rest_text op.now) }
    ensures room { OnOk result (IsBelow 8 (call_of op.now) → HasAllRoom op.now) }
{
    match op {
        Op::Name { what, .. } => push_paths(alloc, to, what),
        Op::Write {
            fid,
            version,
            offset,
            len,
            deltas,
            ..
        } => {
            push_u32(alloc, to, fid.0)?;
            push_u64(alloc, to, *version)?;
            push_u32(alloc, to, *offset)?;
            push_u32(alloc, to, *len)?;
            push_deltas(alloc, to, deltas.slice())
        }
        Op::Cut {
            fid,
            version,
            length,
            deltas,
            ..
        } => {
            push_u32(alloc, to, fid.0)?;
            push_u64(alloc, to, *version)?;
            push_u32(alloc, to, *length)?;
            push_deltas(alloc, to, deltas.slice())
        }
        Op::Sync { .. } => Ok(()),
        Op::Clean { deltas } => push_deltas(alloc, to, deltas.slice()),
    }
}

fn push_op(alloc: Global, to: &mut ByteList, op: &Op) -> Mem<()>
    requires { length (deltas_of op.now) < 2 ^ 32 }
    ensures text { OnOk result (to.new ≡ to.old ++ op_text op.now) }
    ensures room { OnOk result (HasAllRoom op.now) }
{
    let (kind, call) = kind_and_call(op);
    to.push(kind)?;
    push_u64(alloc, to, call)?;
    push_rest(alloc, to, op)
}

/// Writes operations, or a part of them where memory runs out.
pub(crate) fn push_ops(alloc: Global, to: &mut ByteList, ops: &[Op]) -> Mem<()>
    requires { sum_by op_length ops.now < 2 ^ 32 }
    ensures text { OnOk result (to.new ≡ to.old ++ ops_text ops.now) }
    ensures room { OnOk result (AllByRecursion HasAllRoom ops.now) }
{
    for op in ops {
        push_op(alloc, to, op)?;
    }
    Ok(())
}
