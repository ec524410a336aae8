ghost use Rattle.std.specs.Prelude.{◌≡◌, ◌+◌, ◌<◌, ◌≤◌, [], true, IfOk, IfSome, IsErrOf, All, List, length, map};
ghost use Rattle.zb_types.specs.declared.ids.Ptr.{Ptr as PtrOf};
ghost use Rattle.std.specs.List.{AllByRecursion};
ghost use Rattle.zb_types.specs.Apply.{is_update};
ghost use Rattle.zb_log.specs.declared.placed.LogFault.TheVariants.{Worn};
ghost use Rattle.zb_log.specs.Places.{place, InOrder};
ghost use Rattle.zb_log.specs.Placing.{last_stripe};
ghost use Rattle.zb_log.specs.Logs.{laid_next, IsPlaced};
ghost use Rattle.zb_batch.specs.Batches.{IsBatch, IsSpellable};
ghost use Rattle.zb_batch.specs.Spelling.{meta_length};
ghost use Rattle.zb_basis.specs.Runs.{run_of};
ghost use Rattle.zb_basis.specs.Looking.{asks_of, room_of, AreFoundFor};
ghost use Rattle.zb_basis.specs.Operations.{short_length};
ghost use Rattle.zb_basis.specs.Wanting.{wanted_by, AreFetched};
ghost use Rattle.zb_basis.specs.Forming.{log_from, IsFormed, IsLaid, IsTooFar};
ghost use Rattle.zb_forming.specs.Drafts.{Fits};
ghost use Rattle.zb_forming.specs.Ops.{batch_made};
ghost use Rattle.zb_forming.specs.Sealing.{drafts_of, IsGiven, IsMade};

use crate::building::{batch_made, know_all_paths, short_length};
use crate::draft::Drafts;
use crate::drafting::{drafted, no_drafts};
use std::alloc::Global;
use zb_basis::{Basis, Formed, Numbered, Sealed, Setting, writers_out};
use zb_batch::{Batch, batches_have_their_length};
use zb_log::{LogBuf, LogFault, Placed};
use zb_stripe::WritePlan;
use zb_types::{ByteList, Class, Mem, Ptr};

/// The operations of the calls, with the bytes of the new blocks.
fn drafts_of(alloc: Global, block: u32, room: u32, calls: &[Numbered], basis: &Basis) -> Mem<Drafts>
    requires given { IsGiven block room calls.now basis.now }
    ensures exact { IfOk result (λ s. s ≡ drafts_of block calls.now basis.now) }
    ensures fit { IfOk result (λ s. AllByRecursion (Fits block) s.blocks) }
{
    let s = no_drafts(alloc)?;
    drafted(
        alloc,
        block,
        calls,
        basis.found.slice(),
        s,
        basis.fetched.slice(),
    )
}

/// How many bytes each block has.
fn lengths(alloc: Global, blocks: &[ByteList]) -> Mem<Vec<u32>>
    ensures { IfOk result (λ lens. lens.items ≡ map (λ block. short_length (length block)) blocks.now) }
{
    let mut lens = Vec::new(alloc);
    for block in blocks {
        lens.push(short_length(block.len()))?;
    }
    Ok(lens)
}

/// Places a batch next in the log, with blocks of 1 to `block` bytes.
fn place_next(
    alloc: Global,
    log: &LogBuf,
    block: u32,
    meta: u32,
    blocks: &[ByteList],
) -> Result<Placed, LogFault>
    requires block { log.now.block ≡ block }
    requires small { block ≤ 4096 }
    requires fit { AllByRecursion (Fits block) blocks.now }
    ensures laid { IfOk result (IsLaid log.now meta (map length blocks.now)) }
    ensures worn { IsErrOf result Worn → last_stripe < (laid_next log.now meta (map length blocks.now)).next.stripe }
{
    let lens = lengths(alloc, blocks)?;
    log.place(alloc, meta, &lens)
}

/// The batch of the calls, where its new blocks have these pointers.
fn batch_of(alloc: Global, to: Setting, calls: &[Numbered], s: &Drafts, ptrs: &[Ptr]) -> Mem<Batch>
    ensures { IfOk result (λ batch. batch ≡ batch_made to.log to.number ptrs.now calls.now s.now.drafts) }
{
    batch_made(alloc, to.log, to.number, ptrs, calls, s.drafts.slice())
}

/// Seals a batch that was placed next in the log, and makes the requests that store it.
fn sealed(
    alloc: Global,
    log: &LogBuf,
    to: Setting,
    batch: Batch,
    placed: Placed,
    blocks: &[ByteList],
) -> Mem<Formed>
    requires servers { log.now.servers ≡ to.geo.servers }
    requires fragment { log.now.fragment ≡ to.geo.fragment }
    requires room { log.now.room ≡ room_of to.geo.servers to.geo.fragment }
    requires spellable { IsSpellable batch }
    requires placed { IsPlaced log.now (meta_length batch) (map length blocks.now) placed }
    requires order { InOrder log.now.room log.now.next placed.pieces placed.next }
    ensures made { IfOk result (IsMade to.geo.servers to.geo.fragment log.now to.members batch placed blocks.now) }
    ensures whole { IfOk result (λ formed. 1 ≤ batch.number → IsBatch batch) }
{
    batches_have_their_length();
    let text = batch.write(alloc)?;
    let fresh = log.seal(alloc, &placed, &text, blocks)?;
    let out = writers_out(&to.members);
    let plan = WritePlan::new(alloc, &to.geo, &fresh, out, Class::Client)?;
    Ok(Formed {
        sealed: Sealed {
            members: to.members,
            batch,
            placed,
        },
        fresh,
        plan,
    })
}

/// How many bytes the meta part of the batch takes, whatever its pointers are.
fn meta_of(alloc: Global, to: Setting, calls: &[Numbered], s: &Drafts, basis: &Basis) -> Mem<u32>
    requires given { IsGiven to.geo.block (room_of to.geo.servers to.geo.fragment) calls.now basis.now }
    requires drafts { s.now ≡ drafts_of to.geo.block calls.now basis.now }
    ensures length { IfOk result (λ meta. (ptrs : List PtrOf) → meta ≡ meta_length (batch_made to.log to.number ptrs calls.now s.now.drafts)) }
    ensures spelled { (ptrs : List PtrOf) → IsSpellable (batch_made to.log to.number ptrs calls.now s.now.drafts) }
{
    know_all_paths(calls);
    batches_have_their_length();
    Ok(batch_of(alloc, to, calls, s, &[])?.meta_len())
}

/// Forms the batch in the log where it stands.
fn form_next(
    alloc: Global,
    log: &LogBuf,
    to: Setting,
    calls: &[Numbered],
    basis: &Basis,
) -> Result<Formed, LogFault>
    requires log { log.now.log ≡ to.log }
    requires servers { log.now.servers ≡ to.geo.servers }
    requires fragment { log.now.fragment ≡ to.geo.fragment }
    requires block { log.now.block ≡ to.geo.block }
    requires room { log.now.room ≡ room_of to.geo.servers to.geo.fragment }
    requires given { IsGiven to.geo.block (room_of to.geo.servers to.geo.fragment) calls.now basis.now }
    ensures formed { IfOk result (IsFormed to.geo.servers to.geo.fragment to.geo.block log.now to.number to.members calls.now basis.now) }
    ensures worn { IsErrOf result Worn → IsTooFar to.geo.block log.now to.number calls.now basis.now }
{
    let room = (to.geo.servers - 1) * to.geo.fragment;
    let s = drafts_of(alloc, to.geo.block, room, calls, basis)?;
    let meta = meta_of(alloc, to, calls, &s, basis)?;
    let placed = match place_next(alloc, log, to.geo.block, meta, s.blocks.slice()) {
        Ok(placed) => placed,
        Err(fault) => return Err(fault),
    };
    let batch = batch_of(alloc, to, calls, &s, placed.ptrs.slice())?;
    let formed = sealed(alloc, log, to, batch, placed, s.blocks.slice())?;
    Ok(formed)
}

/// A log behind a stripe.
fn renewed(alloc: Global, to: Setting, last: u64) -> Mem<LogBuf>
    requires { last ≤ last_stripe }
    ensures { IfOk result (λ log. log ≡ record {
      log = to.log;
      servers = to.geo.servers;
      fragment = to.geo.fragment;
      room = room_of to.geo.servers to.geo.fragment;
      block = to.geo.block;
      next = place (last + 1) 0;
      parity = [];
    }) }
{
    let mut log = LogBuf::new(alloc, &to.geo, to.log)?;
    log.next_stripe(last);
    Ok(log)
}

/// Forms the batch of some calls from what was looked up and fetched for them: each new block from its old one as the
/// earlier operations leave it. It is placed behind the last batch of the log, or in the stripe behind `behind`. The log
/// stays as it is: once the flush has reached its end, it goes on behind the batch, after `next_stripe` with `behind`
/// where there is one. `Worn` comes exactly where the batch goes above the last stripe that a log may have, 2 ^ 48.
pub fn form(
    alloc: Global,
    log: &LogBuf,
    to: Setting,
    calls: &[Numbered],
    basis: &Basis,
) -> Result<Formed, LogFault>
    requires log { log.now.log ≡ to.log }
    requires servers { log.now.servers ≡ to.geo.servers }
    requires fragment { log.now.fragment ≡ to.geo.fragment }
    requires block { log.now.block ≡ to.geo.block }
    requires room { log.now.room ≡ room_of to.geo.servers to.geo.fragment }
    requires behind { IfSome to.behind (λ last. last ≤ last_stripe) }

    // The calls form one batch.
    requires run { run_of calls.now ≡ calls.now }
    requires some { 0 < length calls.now }
    requires updates { All (λ call. is_update call.call ≡ true) calls.now }
    requires found { AreFoundFor to.geo.block (room_of to.geo.servers to.geo.fragment) (asks_of to.geo.block calls.now) basis.now.found }
    requires fetched { AreFetched (wanted_by to.geo.block calls.now basis.now.found) basis.now.fetched }
    ensures formed { IfOk result (IsFormed to.geo.servers to.geo.fragment to.geo.block (log_from log.now to.behind) to.number to.members calls.now basis.now) }
    ensures worn { IsErrOf result Worn → IsTooFar to.geo.block (log_from log.now to.behind) to.number calls.now basis.now }
{
    match to.behind {
        None => form_next(alloc, log, to, calls, basis),
        Some(last) => {
            let log = renewed(alloc, to, last)?;
            form_next(alloc, &log, to, calls, basis)
        }
    }
}
