ghost use Rattle.std.specs.Prelude.{◌≡◌, ◌≤◌, ◌+◌, ◌==◌, ℕ, if◌then◌else◌, is_some, not, true, IfOk, OnOk, length};
ghost use Rattle.zb_delta.specs.Spelling.{body_of};
ghost use Rattle.zb_pointers.specs.Seen.{HasRoom};
ghost use Rattle.zb_manager.specs.Works.{HasRoomFor, RoomForWork, fid_of, fresh_in, is_fresh, moves_new, needed, needed_by};

use crate::work::{Step, Work};
use crate::working::body_of;
use std::alloc::Global;
use zb_delta::Delta;
use zb_pointers::Pointers;
use zb_types::{Fid, Mem, NoMemory};

// One more of so many, which no memory has 2 ^ 32 of.
fn and_more(count: u32, more: usize) -> Mem<u32>
    ensures { IfOk result (λ sum. sum ≡ count + more) }
{
    let more = u32::try_from(more).map_err(|_| NoMemory)?;
    count.checked_add(more).ok_or(NoMemory)
}

// The file that a step changes.
fn file_of(step: &Step) -> Fid
    ensures { result.0 ≡ fid_of step.now }
{
    match step {
        Step::Raise { fid, .. } | Step::Shorten { fid, .. } => *fid,
    }
}

// For how many new blocks of a file a step needs room at most.
fn needed_by(step: &Step, fid: Fid) -> usize
    ensures { result ≡ needed_by fid.0 step.now }
{
    let (file, deltas) = match step {
        Step::Raise { fid, deltas, .. } | Step::Shorten { fid, deltas, .. } => (fid, deltas),
    };
    if file.0 == fid.0 { deltas.len() } else { 0 }
}

// For how many new blocks of a file steps need room at most.
fn needed(steps: &[Step], fid: Fid) -> Mem<u32>
    ensures { IfOk result (λ count. count ≡ needed fid.0 steps.now) }
{
    let mut count = 0;
    let mut rest = steps;
    while let Some((step, others)) = rest.split_first() {
        count = and_more(count, needed_by(step, fid))?;
        rest = others;
    }
    Ok(count)
}

// Makes room for the new blocks of steps.
fn room_for_steps(alloc: Global, pointers: &mut Pointers, steps: &[Step]) -> Mem<()>
    ensures files { pointers.new.files ≡ pointers.old.files }
    ensures block { pointers.new.block ≡ pointers.old.block }
    ensures ok { OnOk result ((fid : ℕ) → HasRoomFor pointers.new fid (needed fid steps.now)) }
{
    for step in steps {
        let fid = file_of(step);
        let blocks = needed(steps, fid)?;
        pointers.reserve(alloc, fid, blocks)?;
    }
    Ok(())
}

// Whether a move puts a block where none stood.
fn is_fresh(delta: &Delta) -> bool
    ensures { result ≡ is_fresh delta.now }
{
    body_of(delta).was.is_none()
}

// How many moves put a block where none stood.
fn fresh_in(deltas: &[Delta]) -> Mem<u32>
    ensures { IfOk result (λ count. count ≡ fresh_in deltas.now) }
{
    let mut count = 0;
    let mut rest = deltas;
    while let Some((delta, others)) = rest.split_first() {
        count = and_more(count, usize::from(is_fresh(delta)))?;
        rest = others;
    }
    Ok(count)
}

// Makes room for so many blocks of a move's file, where the move puts one where none stood.
fn room_for_move(alloc: Global, pointers: &mut Pointers, delta: &Delta, fresh: u32) -> Mem<()>
    ensures files { pointers.new.files ≡ pointers.old.files }
    ensures block { pointers.new.block ≡ pointers.old.block }
    ensures kept { (fid n : ℕ) → HasRoom pointers.old fid n → HasRoom pointers.new fid n }
    ensures ok { OnOk result (is_fresh delta.now ≡ true → HasRoom pointers.new (body_of delta.now).fid.0 fresh) }
{
    if !is_fresh(delta) {
        return Ok(());
    }
    pointers.reserve(alloc, body_of(delta).fid, fresh)
}

// Makes room for the blocks that moves put where none stood.
fn room_for_moves(alloc: Global, pointers: &mut Pointers, deltas: &[Delta]) -> Mem<()>
    ensures files { pointers.new.files ≡ pointers.old.files }
    ensures block { pointers.new.block ≡ pointers.old.block }
    ensures ok { OnOk result ((fid : ℕ) → HasRoomFor pointers.new fid (moves_new fid deltas.now)) }
{
    let fresh = fresh_in(deltas)?;
    for delta in deltas {
        room_for_move(alloc, pointers, delta, fresh)?;
    }
    Ok(())
}

/// Makes room for what a batch does to files.
pub(crate) fn room_for_work(alloc: Global, pointers: &mut Pointers, work: &Work) -> Mem<()>
    ensures files { pointers.new.files ≡ pointers.old.files }
    ensures block { pointers.new.block ≡ pointers.old.block }
    ensures ok { OnOk result (RoomForWork pointers.new work.now) }
{
    match work {
        Work::Add { fid, .. } => pointers.reserve(alloc, *fid, 0),
        Work::Files(steps) => room_for_steps(alloc, pointers, steps.slice()),
        Work::Move(deltas) => room_for_moves(alloc, pointers, deltas.slice()),
        Work::Nothing | Work::Remove { .. } | Work::Rename { .. } => Ok(()),
    }
}
