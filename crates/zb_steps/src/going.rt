ghost use Rattle.std.specs.Prelude.{◌≡◌, ℕ, List, ◌+◌, ◌-◌, ◌*◌, ◌<◌, ◌≤◌, [], ◌∷◌, IfOk, IsErrOf, OnErr, IfSome, All, length, drop, true, Option, None};
ghost use Rattle.zb_types.specs.Apply.{is_update};
ghost use Rattle.zb_stripe.specs.Reading.{start};
ghost use Rattle.zb_log.specs.declared.placed.LogFault.TheVariants.{Worn};
ghost use Rattle.zb_log.specs.Placing.{last_stripe};
ghost use Rattle.zb_log.specs.Logs.{SeenLog};
ghost use Rattle.zb_basis.specs.Looking.{room_of};
ghost use Rattle.zb_basis.specs.Runs.{run_of};
ghost use Rattle.zb_basis.specs.Forming.{IsFormed, log_from, readers_out};
ghost use Rattle.zb_work.specs.Steps.{first_members};
ghost use Rattle.zb_work.specs.Blocks.{next_missing, shifted};
ghost use Rattle.zb_work.specs.Fitting.{FoundFor, wanted_for, Rests, IsBehind};
ghost use Rattle.zb_steps.specs.Desks.{HasGiven};
ghost use Rattle.zb_steps.specs.Going.{Onward, NextFits, FoundGives, CannotGo, behind, log_for, looked_up};
ghost use Rattle.zb_steps.specs.Ahead.{IsReplyFor, IsAhead, goes_on};

use crate::desk::Desk;
use crate::next::{Ahead, Next};
use std::alloc::Global;
use std::collections::VecDeque;
use zb_basis::{Basis, Formed, FoundList, Numbered, Setting, readers_out, run_length};
use zb_forming::{form, read_file, wanted_blocks, wanted_by_read};
use zb_log::{LogBuf, LogFault, PtrList};
use zb_stripe::ReadPlan;
use zb_types::{Found, Geometry, Mem, Ptr, Reply};
use zb_work::{Flushed, Step, ask_for_each, members_of, next_missing, slots_of};

/// The calls of the next batch, none where no call is kept.
pub fn run_of(kept: &[Numbered]) -> &[Numbered]
    requires { All (λ call. is_update call.call ≡ true) kept.now }
    ensures run { result.now ≡ run_of kept.now }
    ensures updates { All (λ call. is_update call.call ≡ true) result.now }
{
    let n = run_length(kept);
    &kept[..n]
}

/// Where a log goes on in this generation: behind the last stripe of its last flush, where the generation is another
/// than that one's, or it didn't reach its end.
fn behind(flushed: &Option<Flushed>, generation: u64) -> Option<u64>
    ensures behind { result ≡ behind flushed.now generation }
    ensures lasting { (log : SeenLog) → IfSome flushed.now (IsBehind log) → IfSome result (λ last. last ≤ last_stripe) }
{
    match flushed {
        Some(last) if last.ended && last.generation == generation => None,
        Some(last) => Some(last.stripe),
        None => None,
    }
}

/// The log goes on there.
fn renew(log: &mut LogBuf, flushed: &Option<Flushed>, generation: u64)
    requires { IfSome flushed.now (IsBehind log.old) }
    ensures renewed { log.new ≡ log_from log.old (behind flushed.now generation) }
    ensures behind { IfSome flushed.now (IsBehind log.new) }
    ensures given { HasGiven log.old → HasGiven log.new }
{
    if let Some(last) = behind(flushed, generation) {
        log.next_stripe(last);
    }
}

/// The blocks that are wanted for what was found.
fn wanted(
    alloc: Global,
    geo: &Geometry,
    kept: &[Numbered],
    queue: &VecDeque<Numbered>,
    found: &[Found],
) -> Mem<PtrList>
    requires updates { All (λ call. is_update call.call ≡ true) kept.now }
    requires found { FoundFor geo.now.block (room_of geo.now.servers geo.now.fragment) kept.now queue.now.items found.now }
    ensures exact { IfOk result (λ ptrs. ptrs ≡ wanted_for geo.now.block kept.now queue.now.items found.now) }
    ensures within { IfOk result (All (λ p. p.offset + p.len ≤ room_of geo.now.servers geo.now.fragment)) }
{
    if !kept.is_empty() {
        return wanted_blocks(alloc, geo, run_of(kept), found);
    }
    match queue.front() {
        Some(read) => wanted_by_read(alloc, geo, &read.call, found),
        None => PtrList::new(alloc),
    }
}

/// What reads a block, for the members that lookups showed.
fn reading(alloc: Global, geo: &Geometry, found: &[Found], ptr: &Ptr) -> Mem<ReadPlan>
    requires { ptr.now.offset + ptr.now.len ≤ room_of geo.now.servers geo.now.fragment }
    ensures { IfOk result (λ plan. plan ≡ start geo.now.servers geo.now.fragment ptr.now (readers_out (first_members found.now).state)) }
{
    let out = readers_out(&members_of(found));
    ReadPlan::new(alloc, geo, ptr, out)
}

/// The reply to the read, once all blocks are there.
fn reply_to(alloc: Global, geo: &Geometry, queue: &VecDeque<Numbered>, basis: &Basis) -> Mem<Reply>
    requires rests { Rests geo.now.servers geo.now.fragment geo.now.block [] queue.now.items 0 basis.now }
    requires all { next_missing basis.now.fetched ≡ None }
    ensures { IfOk result (IsReplyFor geo.now.block basis.now queue.now.items) }
{
    match queue.front() {
        Some(read) => read_file(alloc, geo, &read.call, basis),
        None => Ok(Reply::Done),
    }
}

impl Desk {
    /// The next batch, once all blocks are there.
    fn formed(&self, alloc: Global, kept: &[Numbered], basis: &Basis) -> Result<Formed, LogFault>
        requires updates { All (λ call. is_update call.call ≡ true) kept.now }
        requires keeps { 0 < length kept.now }
        requires rests { Rests self.now.servers self.now.fragment self.now.block kept.now [] 0 basis.now }
        requires all { next_missing basis.now.fetched ≡ None }
        ensures formed { IfOk result (IsFormed self.now.servers self.now.fragment self.now.block (log_for self.now basis.now) self.now.batch (first_members basis.now.found) (run_of kept.now) basis.now) }
        ensures worn { IsErrOf result Worn → CannotGo self.now kept.now basis.now }
    {
        let members = members_of(basis.found.slice());
        let to = Setting {
            geo: self.geo,
            log: self.id,
            number: self.batch,
            members,
            behind: behind(&self.flushed, members.generation),
        };
        form(alloc, &self.log, to, run_of(kept), basis)
    }

    /// What lies ahead of the batch, or of the read, with what is there, where no block before place `from` is missing.
    pub(crate) fn ahead(
        &self,
        alloc: Global,
        kept: &[Numbered],
        queue: &VecDeque<Numbered>,
        basis: &Basis,
        from: usize,
    ) -> Result<Ahead, LogFault>
        requires updates { All (λ call. is_update call.call ≡ true) kept.now }
        requires rests { Rests self.now.servers self.now.fragment self.now.block kept.now queue.now.items 0 basis.now }
        requires within { from ≤ length basis.now.fetched }
        requires there { next_missing basis.now.fetched ≡ shifted from (next_missing (drop from basis.now.fetched)) }
        ensures ok { IfOk result (IsAhead self.now kept.now queue.now.items basis.now) }
        ensures worn { IsErrOf result Worn → CannotGo self.now kept.now basis.now }
    {
        if let Some((at, ptr)) = next_missing(basis.fetched.slice(), from) {
            let plan = reading(alloc, &self.geo, basis.found.slice(), &ptr)?;
            return Ok(Ahead::Fetch { at, ptr, plan });
        }
        if kept.is_empty() {
            return Ok(Ahead::Reply(reply_to(alloc, &self.geo, queue, basis)?));
        }
        Ok(Ahead::Store(self.formed(alloc, kept, basis)?))
    }

    /// Goes on so. For a batch the log goes on where the batch has its place.
    pub(crate) fn go_on(&mut self, basis: Basis, ahead: Ahead) -> Next
        ensures { goes_on self.old basis ahead ≡ record { desk = self.new; next = result } }
    {
        match ahead {
            Ahead::Fetch { at, ptr, plan } => Next::Step(Step::Fetch {
                basis,
                at,
                ptr,
                plan,
            }),
            Ahead::Store(formed) => {
                let generation = members_of(basis.found.slice()).generation;
                renew(&mut self.log, &self.flushed, generation);
                Next::Step(Step::Store { basis, formed })
            }
            Ahead::Reply(reply) => Next::Reply(reply),
        }
    }

    /// Takes what a lookup found for the next batch of these kept calls, or for the first queued call. `Worn` comes
    /// where all blocks are there, and the batch goes above the last stripe that a log may have, 2 ^ 48. After an error
    /// the desk is as before.
    pub fn found(
        &mut self,
        alloc: Global,
        kept: &[Numbered],
        queue: &VecDeque<Numbered>,
        found: FoundList,
    ) -> Result<Next, LogFault>
        requires updates { All (λ call. is_update call.call ≡ true) kept.now }
        requires found { FoundFor self.old.block (room_of self.old.servers self.old.fragment) kept.now queue.now.items found }
        ensures ok { IfOk result (λ next. FoundGives self.old kept.now queue.now.items found (record { desk = self.new; next = next })) }
        ensures fits { IfOk result (NextFits self.new kept.now queue.now.items) }
        ensures err { OnErr result (self.new ≡ self.old) }
        ensures worn { IsErrOf result Worn → CannotGo self.old kept.now (looked_up self.old kept.now queue.now.items found) }
    {
        self.knows();
        let wanted = wanted(alloc, &self.geo, kept, queue, found.slice())?;
        let fetched = slots_of(alloc, &self.cache, wanted.slice())?;
        let basis = Basis {
            found,
            wanted,
            fetched,
        };
        let ahead = self.ahead(alloc, kept, queue, &basis, 0)?;
        ask_for_each(&mut self.cache, basis.wanted.slice());
        Ok(self.go_on(basis, ahead))
    }
}
