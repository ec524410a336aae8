ghost use Rattle.std.specs.Prelude.{◌≡◌, ◌+◌, ◌<◌, ◌≤◌, IfOk, IsErrOf, IfSome, All, List, length, map, [], ◌∷◌};
ghost use Rattle.std.specs.List.{AllByRecursion};
ghost use Rattle.zb_types.specs.declared.ids.Ptr.{Ptr as PtrOf};
ghost use Rattle.zb_log.specs.declared.placed.LogFault.TheVariants.{Worn};
ghost use Rattle.zb_log.specs.Places.{place, InOrder};
ghost use Rattle.zb_log.specs.Placing.{last_stripe};
ghost use Rattle.zb_log.specs.Logs.{laid_next, IsPlaced};
ghost use Rattle.zb_batch.specs.Batches.{IsBatch, IsSpellable};
ghost use Rattle.zb_batch.specs.Spelling.{meta_length};
ghost use Rattle.zb_basis.specs.Looking.{room_of};
ghost use Rattle.zb_basis.specs.Forming.{log_from, IsLaid};
ghost use Rattle.zb_pass.specs.Copying.{AreCopied, IsLive};
ghost use Rattle.zb_pass.specs.Moving.{clean_batch, moved, moves, old_lengths, old_ptrs};
ghost use Rattle.zb_pass.specs.Forming.{drafted, IsFormed, IsTooFar};
ghost use Rattle.zb_pass.specs.Making.{IsMade};

use crate::work::{Copies, Target};
use std::alloc::Global;
use zb_basis::{Formed, Sealed, Setting, writers_out};
use zb_batch::{Batch, Op, OpList, batches_have_their_length};
use zb_delta::{Body, Delta, DeltaList};
use zb_log::{LogBuf, LogFault, Placed};
use zb_stripe::WritePlan;
use zb_types::{ByteList, Class, LogId, Mem, NoMemory, Ptr};

/// The delta that moves a block to this pointer.
fn moved(body: &Body, ptr: &Ptr) -> Delta
    ensures { result ≡ moved body.entry.now ptr.now }
{
    Delta::Clean(Body {
        fid: body.fid,
        version: body.version,
        block: body.block,
        was: Some(body.now),
        now: *ptr,
    })
}

/// The deltas that move blocks to these pointers, in order.
fn moves(alloc: Global, live: &[Body], ptrs: &[Ptr]) -> Mem<DeltaList>
    ensures { IfOk result (λ deltas. deltas ≡ moves live.now ptrs.now) }
{
    let mut deltas = Vec::new(alloc);
    let mut rest = ptrs;
    for body in live {
        let Some((ptr, others)) = rest.split_first() else {
            break;
        };
        deltas.push(moved(body, ptr))?;
        rest = others;
    }
    Ok(DeltaList::of(deltas))
}

/// Where blocks are.
fn old_ptrs(alloc: Global, live: &[Body]) -> Mem<Vec<Ptr>>
    ensures { IfOk result (λ ptrs. ptrs.items ≡ old_ptrs live.now) }
{
    let mut ptrs = Vec::new(alloc);
    for body in live {
        ptrs.push(body.now)?;
    }
    Ok(ptrs)
}

/// How many bytes blocks have.
fn old_lengths(alloc: Global, live: &[Body]) -> Mem<Vec<u32>>
    ensures { IfOk result (λ lens. lens.items ≡ old_lengths live.now) }
{
    let mut lens = Vec::new(alloc);
    for body in live {
        lens.push(body.now.len)?;
    }
    Ok(lens)
}

/// The batch that moves blocks to these pointers.
fn batch_of(alloc: Global, log: LogId, number: u64, live: &[Body], ptrs: &[Ptr]) -> Mem<Batch>
    ensures { IfOk result (λ batch. batch ≡ clean_batch log number (moves live.now ptrs.now)) }
{
    let mut ops = OpList::new(alloc)?;
    ops.push(Op::Clean {
        deltas: moves(alloc, live, ptrs)?,
    })?;
    Ok(Batch { log, number, ops })
}

/// The batch of some blocks before its new pointers are known.
fn drafted(alloc: Global, log: LogId, number: u64, live: &[Body]) -> Mem<Batch>
    ensures { IfOk result (λ batch. batch ≡ drafted log number live.now) }
{
    let ptrs = old_ptrs(alloc, live)?;
    batch_of(alloc, log, number, live, &ptrs)
}

/// How many bytes the meta part of the batch takes, whatever its pointers are; `Worn` where it can't be spelled.
fn meta_of(alloc: Global, to: &Setting, live: &[Body]) -> Result<u32, LogFault>
    ensures length { IfOk result (λ meta. meta ≡ meta_length (drafted to.now.log to.now.number live.now)) }
    ensures spelled { IfOk result (λ meta. IsSpellable (drafted to.now.log to.now.number live.now)) }
    ensures worn { IsErrOf result Worn → ¬ (IsSpellable (drafted to.now.log to.now.number live.now)) }
{
    let batch = drafted(alloc, to.log, to.number, live)?;
    if !batch.is_spellable() {
        return Err(LogFault::Worn);
    }
    Ok(batch.meta_len())
}

/// Places a batch next in the log, with the blocks that it moves.
fn place_next(alloc: Global, log: &LogBuf, meta: u32, live: &[Body]) -> Result<Placed, LogFault>
    requires { All (λ n. (1 ≤ n) × (n ≤ log.now.block)) (old_lengths live.now) }
    ensures laid { IfOk result (IsLaid log.now meta (old_lengths live.now)) }
    ensures worn { IsErrOf result Worn → last_stripe < (laid_next log.now meta (old_lengths live.now)).next.stripe }
{
    let lens = old_lengths(alloc, live)?;
    log.place(alloc, meta, &lens)
}

/// Seals a batch that was placed next in the log, and makes the requests that store it.
fn sealed(
    alloc: Global,
    log: &LogBuf,
    to: &Setting,
    batch: Batch,
    placed: Placed,
    blocks: &[ByteList],
) -> Mem<Formed>
    requires servers { log.now.servers ≡ to.now.geo.servers }
    requires fragment { log.now.fragment ≡ to.now.geo.fragment }
    requires room { log.now.room ≡ room_of to.now.geo.servers to.now.geo.fragment }
    requires spellable { IsSpellable batch }
    requires placed { IsPlaced log.now (meta_length batch) (map length blocks.now) placed }
    requires order { InOrder log.now.room log.now.next placed.pieces placed.next }
    ensures made { IfOk result (IsMade to.now.geo.servers to.now.geo.fragment log.now to.now.members batch placed blocks.now) }
    ensures whole { IfOk result (λ formed. 1 ≤ batch.number → IsBatch batch) }
{
    batches_have_their_length();
    let text = batch.write(alloc)?;
    let fresh = log.seal(alloc, &placed, &text, blocks)?;
    let out = writers_out(&to.members);
    let plan = WritePlan::new(alloc, &to.geo, &fresh, out, Class::Cleaner)?;
    Ok(Formed {
        sealed: Sealed {
            members: to.members,
            batch,
            placed,
        },
        fresh,
        plan,
    })
}

/// Forms the batch in the log where it stands.
fn form_next(alloc: Global, log: &LogBuf, to: &Setting, copies: &Copies) -> Result<Formed, LogFault>
    requires log { log.now.log ≡ to.now.log }
    requires servers { log.now.servers ≡ to.now.geo.servers }
    requires fragment { log.now.fragment ≡ to.now.geo.fragment }
    requires room { log.now.room ≡ room_of to.now.geo.servers to.now.geo.fragment }
    requires fit { All (λ n. (1 ≤ n) × (n ≤ log.now.block)) (old_lengths copies.now.live) }
    requires copied { map length copies.now.blocks ≡ old_lengths copies.now.live }
    ensures formed { IfOk result (IsFormed to.now.geo.servers to.now.geo.fragment log.now to.now.number to.now.members copies.now) }
    ensures worn { IsErrOf result Worn → IsTooFar log.now to.now.number copies.now.live }
{
    batches_have_their_length();
    let live = copies.live.slice();
    let meta = match meta_of(alloc, to, live) {
        Ok(meta) => meta,
        Err(fault) => return Err(fault),
    };
    let placed = match place_next(alloc, log, meta, live) {
        Ok(placed) => placed,
        Err(fault) => return Err(fault),
    };
    let batch = batch_of(alloc, to.log, to.number, live, placed.ptrs.slice())?;
    let formed = sealed(alloc, log, to, batch, placed, copies.blocks.slice())?;
    Ok(formed)
}

/// A log behind a stripe.
fn renewed(alloc: Global, to: &Setting, last: u64) -> Mem<LogBuf>
    requires { last ≤ last_stripe }
    ensures { IfOk result (λ log. log ≡ record {
      log = to.now.log;
      servers = to.now.geo.servers;
      fragment = to.now.geo.fragment;
      room = room_of to.now.geo.servers to.now.geo.fragment;
      block = to.now.geo.block;
      next = place (last + 1) 0;
      parity = [];
    }) }
{
    let mut log = LogBuf::new(alloc, &to.geo, to.log)?;
    log.next_stripe(last);
    Ok(log)
}

/// Forms the batch that moves the blocks of a stripe, which have all come. It is placed behind the last batch of the log,
/// or in the stripe behind `behind`. The log stays as it is: once the flush has reached its end, it goes on behind the
/// batch, after `next_stripe` with `behind` where there is one. `Worn` comes where the batch can't be spelled in four
/// bytes of length, or goes above the last stripe that a log may have, 2 ^ 48.
pub(crate) fn form(
    alloc: Global,
    log: &LogBuf,
    to: &Setting,
    copies: &Copies,
) -> Result<Formed, LogFault>
    requires log { log.now.log ≡ to.now.log }
    requires servers { log.now.servers ≡ to.now.geo.servers }
    requires fragment { log.now.fragment ≡ to.now.geo.fragment }
    requires block { log.now.block ≡ to.now.geo.block }
    requires room { log.now.room ≡ room_of to.now.geo.servers to.now.geo.fragment }
    requires behind { IfSome to.now.behind (λ last. last ≤ last_stripe) }
    requires fit { All (λ n. (1 ≤ n) × (n ≤ to.now.geo.block)) (old_lengths copies.now.live) }
    requires copied { map length copies.now.blocks ≡ old_lengths copies.now.live }
    ensures formed { IfOk result (IsFormed to.now.geo.servers to.now.geo.fragment (log_from log.now to.now.behind) to.now.number to.now.members copies.now) }
    ensures worn { IsErrOf result Worn → IsTooFar (log_from log.now to.now.behind) to.now.number copies.now.live }
{
    match to.behind {
        None => form_next(alloc, log, to, copies),
        Some(last) => {
            let log = renewed(alloc, to, last)?;
            form_next(alloc, &log, to, copies)
        }
    }
}
