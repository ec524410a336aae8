ghost use Rattle.std.specs.Prelude.{◌≡◌, ◌+◌, ◌<◌, ◌≤◌, ◌++◌, IfOk, OnOk, All, Some};
ghost use Rattle.std.specs.List.{AllByRecursion};
ghost use Rattle.zb_basis.specs.Looking.{asks_of, room_of, AreFoundFor};
ghost use Rattle.zb_basis.specs.Wanting.{has_other, wanted_by, Holds};
ghost use Rattle.zb_forming.specs.Drafts.{no_drafts, IsOrdered};
ghost use Rattle.zb_forming.specs.Wants.{found_where, listed, wanted_after, wanted_changes, wanted_for, wanted_where};

use crate::draft::{Change, Drafts, Was};
use crate::drafting::{draft_of, no_drafts};
use std::alloc::Global;
use zb_basis::Numbered;
use zb_log::PtrList;
use zb_types::{Call, Found, Geometry, Mem, NoMemory, Ptr};

/// Whether block `k`, which stands here, has a byte outside of those from `offset` to before `end`.
fn has_other(block: u32, offset: u32, end: usize, k: u32, ptr: Ptr) -> bool
    ensures { result ≡ has_other block offset end k (Some ptr) }
{
    let start = k as usize * block as usize;
    start < offset as usize || end < start + ptr.len as usize
}

/// What is wanted of a block that a write makes anew.
fn wanted_where(block: u32, offset: u32, end: usize, change: &Change) -> Option<Ptr>
    ensures { listed result ≡ wanted_where block offset end change.now.block change.now.was }
{
    match change.was {
        Was::Stored(ptr) if has_other(block, offset, end, change.block, ptr) => Some(ptr),
        _ => None,
    }
}

/// The block that was found, where it stood anywhere.
fn found_where(change: &Change) -> Option<Ptr>
    ensures { listed result ≡ found_where change.now.was }
{
    match change.was {
        Was::Stored(ptr) => Some(ptr),
        _ => None,
    }
}

/// What is wanted of a block that a call makes anew.
fn wanted_for(block: u32, call: &Call, change: &Change) -> Option<Ptr>
    ensures { listed result ≡ wanted_for block call.now change.now }
{
    match call {
        Call::Write { offset, bytes, .. } => {
            let end = *offset as usize + bytes.slice().len();
            wanted_where(block, *offset, end, change)
        }
        Call::Truncate { .. } => found_where(change),
        _ => None,
    }
}

/// The pointers with one more, where there is one.
fn with_ptr(ptrs: &mut PtrList, ptr: Option<Ptr>) -> Mem<()>
    ensures { OnOk result (ptrs.new ≡ ptrs.old ++ listed ptr) }
{
    if let Some(ptr) = ptr {
        ptrs.push(ptr)?;
    }
    Ok(())
}

/// Adds what is wanted of the blocks that a call makes anew.
fn push_wanted(ptrs: PtrList, block: u32, call: &Call, changes: &[Change]) -> Mem<PtrList>
    ensures { IfOk result (λ all. all ≡ ptrs ++ wanted_changes block call.now changes.now) }
{
    let Some((change, others)) = changes.split_first() else {
        return Ok(ptrs);
    };
    let mut ptrs = ptrs;
    with_ptr(&mut ptrs, wanted_for(block, call, change))?;
    push_wanted(ptrs, block, call, others)
}

/// Adds what is wanted for some calls behind others.
fn wanted_after(
    alloc: Global,
    block: u32,
    calls: &[Numbered],
    founds: &[Found],
    s: Drafts,
    ptrs: PtrList,
) -> Mem<PtrList>
    requires block { 0 < block }
    requires found { AllByRecursion IsOrdered founds.now }
    ensures { IfOk result (λ all. all ≡ ptrs ++ wanted_after block calls.now founds.now s) }
{
    let Some((call, calls)) = calls.split_first() else {
        return Ok(ptrs);
    };
    let Some((found, founds)) = founds.split_first() else {
        return Ok(ptrs);
    };
    let draft = draft_of(alloc, block, &s, &call.call, found)?;
    let ptrs = push_wanted(ptrs, block, &call.call, draft.changes.slice())?;
    let Drafts { mut drafts, blocks } = s;
    drafts.push(draft)?;
    wanted_after(alloc, block, calls, founds, Drafts { drafts, blocks }, ptrs)
}

/// The old blocks that are wanted for a batch of these calls, in order: each that a write covers in part, and in which
/// a truncation ends before its last byte, where no earlier call of the batch gave the block other bytes.
pub fn wanted_blocks(
    alloc: Global,
    geo: &Geometry,
    calls: &[Numbered],
    found: &[Found],
) -> Mem<PtrList>
    requires { AreFoundFor geo.now.block (room_of geo.now.servers geo.now.fragment) (asks_of geo.now.block calls.now) found.now }
    ensures exact { IfOk result (λ ptrs. ptrs ≡ wanted_by geo.now.block calls.now found.now) }

    // Each was found, and lies within its stripe.
    ensures found { IfOk result (All (Holds found.now)) }
    ensures within { IfOk result (All (λ p. p.offset + p.len ≤ room_of geo.now.servers geo.now.fragment)) }
{
    let ptrs = PtrList::new(alloc)?;
    let s = no_drafts(alloc)?;
    wanted_after(alloc, geo.block, calls, found, s, ptrs)
}
