ghost use Rattle.std.specs.Prelude.{◌≡◌, ◌+◌, ◌<◌, ◌++◌, IfOk, length, slice_get};
ghost use Rattle.std.specs.List.{AllByRecursion};
ghost use Rattle.zb_basis.specs.Operations.{short_length};
ghost use Rattle.zb_forming.specs.Ops.{batch_made, delta_of, deltas_made, first_only, op_made, ops_made, or_no_ptr, ptr_of, HasPaths};

use crate::draft::{Change, Draft, Was};
use std::alloc::Global;
use zb_basis::Numbered;
use zb_batch::{Batch, Op, OpList};
use zb_delta::{Body, Delta, DeltaList};
use zb_types::{Call, Fid, LogId, Mem, NoMemory, Ptr};

/// The pointer of a new block, where the new blocks of its batch have these pointers.
fn new_ptr(ptrs: &[Ptr], place: usize) -> Ptr
    ensures { result ≡ or_no_ptr (slice_get ptrs.now place) }
{
    match ptrs.get(place) {
        Some(ptr) => *ptr,
        None => Ptr {
            log: LogId(0),
            stripe: 0,
            offset: 0,
            len: 0,
        },
    }
}

/// The pointer of a block, where it stands anywhere.
fn ptr_of(ptrs: &[Ptr], was: Was) -> Option<Ptr>
    ensures { result ≡ ptr_of ptrs.now was }
{
    match was {
        Was::Hole => None,
        Was::Stored(ptr) => Some(ptr),
        Was::New(place) => Some(new_ptr(ptrs, place)),
    }
}

fn delta_of(ptrs: &[Ptr], fid: Fid, version: u64, change: &Change) -> Delta
    ensures { result ≡ delta_of ptrs.now fid version change.now }
{
    Delta::Update(Body {
        fid,
        version,
        block: change.block,
        was: ptr_of(ptrs, change.was),
        now: new_ptr(ptrs, change.place),
    })
}

/// The deltas of an operation on a file at a version.
fn deltas_made(
    alloc: Global,
    ptrs: &[Ptr],
    fid: Fid,
    version: u64,
    changes: &[Change],
) -> Mem<DeltaList>
    ensures { IfOk result (λ deltas. deltas ≡ deltas_made ptrs.now fid version changes.now) }
{
    let mut deltas = Vec::new(alloc);
    for change in changes {
        deltas.push(delta_of(ptrs, fid, version, change))?;
    }
    Ok(DeltaList::of(deltas))
}

fn first_only(changes: &[Change]) -> &[Change]
    ensures { result.now ≡ first_only changes.now }
{
    let (first, _) = changes.split_at(changes.len().min(1));
    first
}

/// A write's length as its operation has it.
pub(crate) fn short_length(len: usize) -> u32
    ensures { result ≡ short_length len }
{
    len.min(u32::MAX as usize) as u32
}

/// The operation of a call, where the new blocks of its batch have these pointers.
fn op_made(alloc: Global, ptrs: &[Ptr], call: &Numbered, draft: &Draft) -> Mem<Op>
    ensures { IfOk result (λ op. op ≡ op_made ptrs.now call.now.number call.now.call draft.now) }
{
    let number = call.number;
    let changes = draft.changes.slice();
    match &call.call {
        Call::Write { fid, offset, bytes } => Ok(Op::Write {
            call: number,
            fid: *fid,
            version: draft.version,
            offset: *offset,
            len: short_length(bytes.len()),
            deltas: deltas_made(alloc, ptrs, *fid, draft.version, changes)?,
        }),
        Call::Truncate { fid, length } => Ok(Op::Cut {
            call: number,
            fid: *fid,
            version: draft.version,
            length: *length,
            deltas: deltas_made(alloc, ptrs, *fid, draft.version, first_only(changes))?,
        }),
        Call::Sync => Ok(Op::Sync { call: number }),
        what => Ok(Op::Name {
            call: number,
            what: what.copy(alloc)?,
        }),
    }
}

/// The operations of some calls, behind these.
fn ops_made(
    alloc: Global,
    ptrs: &[Ptr],
    calls: &[Numbered],
    drafts: &[Draft],
    ops: OpList,
) -> Mem<OpList>
    ensures { IfOk result (λ all. all ≡ ops ++ ops_made ptrs.now calls.now drafts.now) }
{
    let Some((call, calls)) = calls.split_first() else {
        return Ok(ops);
    };
    let Some((draft, drafts)) = drafts.split_first() else {
        return Ok(ops);
    };
    let mut ops = ops;
    ops.push(op_made(alloc, ptrs, call, draft)?)?;
    ops_made(alloc, ptrs, calls, drafts, ops)
}

/// Says of the paths of a call that they are paths; it does nothing.
fn know_paths(call: &Call)
    ensures { HasPaths call.now }
{
    match call {
        Call::Create(path) | Call::Mkdir(path) | Call::Remove(path) => {
            let _ = path.slice();
        }
        Call::Rename(from, to) => {
            let _ = from.slice();
            let _ = to.slice();
        }
        _ => {}
    }
}

/// Says of the paths of some calls that they are paths; it does nothing.
pub(crate) fn know_all_paths(calls: &[Numbered])
    ensures { AllByRecursion (λ call. HasPaths call.call) calls.now }
{
    let Some((call, others)) = calls.split_first() else {
        return;
    };
    know_paths(&call.call);
    know_all_paths(others);
}

/// The batch of some calls, where its new blocks have these pointers.
pub(crate) fn batch_made(
    alloc: Global,
    log: LogId,
    number: u64,
    ptrs: &[Ptr],
    calls: &[Numbered],
    drafts: &[Draft],
) -> Mem<Batch>
    ensures { IfOk result (λ batch. batch ≡ batch_made log number ptrs.now calls.now drafts.now) }
{
    Ok(Batch {
        log,
        number,
        ops: ops_made(alloc, ptrs, calls, drafts, OpList::new(alloc)?)?,
    })
}
