ghost use Rattle.std.specs.Prelude.{◌≡◌, ℕ, List, ◌+◌, ◌-◌, ◌<◌, ◌≤◌, ◌&&◌, ◌==◌, nat_lt, [], IfOk, IfErr, IsErrOf, OnOk, OnErr, All, length, drop, true, false, Option};
ghost use Rattle.zb_types.specs.Apply.{is_update};
ghost use Rattle.zb_stripe.specs.Reading.{asked, fed, Answers, MayWant};
ghost use Rattle.zb_log.specs.declared.placed.LogFault.TheVariants.{Worn};
ghost use Rattle.zb_work.specs.Blocks.{next_missing, shifted};
ghost use Rattle.zb_work.specs.Fitting.{Rests, IsFetching};
ghost use Rattle.zb_steps.specs.Going.{CannotGo, with_block, caches, is_whole};
ghost use Rattle.zb_steps.specs.Serving.{HasMemory, BytesGive, GotGives, GotWears, brings_bytes, serves, unreached, lacked};
ghost use Rattle.zb_steps.specs.Ahead.{IsAhead};

use crate::desk::Desk;
use crate::next::{Ahead, Fetching, Next};
use std::alloc::Global;
use std::collections::VecDeque;
use zb_basis::{Basis, Numbered};
use zb_log::LogFault;
use zb_stripe::{Got, ReadPlan};
use zb_types::{ByteList, Cause, Mem, NoMemory, Ptr, Response, ServerId};
use zb_work::{Step, fill, no_bytes, put};

/// Whether a server serves.
fn serves(serving: u32, server: ServerId) -> bool
    ensures { result ≡ serves serving server }
{
    let place = server.0.saturating_sub(1);
    if place > 31 {
        return false;
    }
    serving >> u32::from(place) & 1 == 1
}

/// Whether a response brings bytes.
fn brings_bytes(response: &Response) -> bool
    ensures { result ≡ brings_bytes response.now }
{
    matches!(response, Response::Bytes(_) | Response::Parity { .. })
}

/// Whether these are all bytes of a pointer, which has some.
fn is_whole(ptr: &Ptr, bytes: &ByteList) -> bool
    ensures { result ≡ is_whole ptr.now bytes.now }
{
    bytes.len() == ptr.len as usize && bytes.len() > 0
}

/// Two servers didn't answer: where one of them serves again, it is looked up anew.
fn unreached(a: ServerId, b: ServerId, serving: u32) -> Next
    ensures { result ≡ unreached a b serving }
{
    if serves(serving, a) || serves(serving, b) {
        return Next::Step(Step::Lookup);
    }
    Next::Stuck(Cause::Unreachable { a, b })
}

impl Fetching {
    /// The step at which the block is being read.
    pub(crate) fn step(self) -> Step
        ensures { result ≡ Step.Fetch self.basis self.at self.ptr self.plan }
    {
        Step::Fetch {
            basis: self.basis,
            at: self.at,
            ptr: self.ptr,
            plan: self.plan,
        }
    }
}

/// How the work goes on where a response to a read brought no block.
fn lacked(read: Fetching, got: Got, serving: u32) -> Next
    ensures { result ≡ lacked read.basis read.at read.ptr read.plan serving got }
{
    match got {
        Got::More => Next::Step(read.step()),
        Got::Unreachable { a, b } => unreached(a, b, serving),
        Got::Bytes(_) | Got::Gone | Got::Old { .. } => Next::Step(Step::Lookup),
    }
}

/// Feeds a response without bytes to a read.
fn lacking(alloc: Global, read: Fetching, response: &Response, serving: u32) -> Next
    requires answers { Answers read.plan.servers (asked read.plan) response.now }
    requires memory { HasMemory response.now }
    requires lacks { brings_bytes response.now ≡ false }
    ensures { result ≡ lacked read.basis read.at read.ptr (fed read.plan response.now).0 serving (fed read.plan response.now).1 }
{
    let Fetching {
        basis,
        at,
        ptr,
        plan,
    } = read;
    let mut plan = plan;
    let Ok(got) = plan.feed(alloc, response) else {
        return Next::Step(Step::Lookup);
    };
    let read = Fetching {
        basis,
        at,
        ptr,
        plan,
    };
    lacked(read, got, serving)
}

/// Feeds a response to a copy of a read.
fn fed_copy(alloc: Global, plan: &ReadPlan, response: &Response) -> Mem<(ReadPlan, Got)>
    requires { Answers plan.now.servers (asked plan.now) response.now }
    ensures { IfOk result (λ pair. pair ≡ fed plan.now response.now) }
{
    let mut plan = plan.copy(alloc)?;
    let got = plan.feed(alloc, response)?;
    Ok((plan, got))
}

/// The basis with these bytes of the block at this place.
fn with_block(basis: Basis, at: usize, ptr: Ptr, bytes: ByteList) -> Basis
    requires { at < length basis.fetched }
    ensures { result ≡ with_block basis at ptr bytes }
{
    let Basis {
        found,
        wanted,
        fetched,
    } = basis;
    let fetched = fill(fetched, at, ptr, bytes);
    Basis {
        found,
        wanted,
        fetched,
    }
}

impl Desk {
    /// What lies ahead with what is there, and a block that was fetched goes into the cache.
    fn ahead_put(
        &mut self,
        alloc: Global,
        kept: &[Numbered],
        queue: &VecDeque<Numbered>,
        basis: &Basis,
        from: usize,
        ptr: Ptr,
        copy: ByteList,
    ) -> Result<Ahead, LogFault>
        requires updates { All (λ call. is_update call.call ≡ true) kept.now }
        requires rests { Rests self.old.servers self.old.fragment self.old.block kept.now queue.now.items 0 basis.now }
        requires within { from ≤ length basis.now.fetched }
        requires there { next_missing basis.now.fetched ≡ shifted from (next_missing (drop from basis.now.fetched)) }
        ensures put { OnOk result (self.new ≡ caches self.old ptr copy) }
        ensures ok { IfOk result (IsAhead self.old kept.now queue.now.items basis.now) }
        ensures err { OnErr result (self.new ≡ self.old) }
        ensures worn { IsErrOf result Worn → CannotGo self.old kept.now basis.now }
    {
        let ahead = self.ahead(alloc, kept, queue, basis, from)?;
        put(&mut self.cache, ptr, copy)?;
        Ok(ahead)
    }

    /// What lies ahead once a block's bytes have come, which are in the basis then, and in the cache. After an error all
    /// is as before.
    fn ahead_with(
        &mut self,
        alloc: Global,
        kept: &[Numbered],
        queue: &VecDeque<Numbered>,
        basis: Basis,
        at: usize,
        ptr: Ptr,
        bytes: ByteList,
    ) -> (Basis, Result<Ahead, LogFault>)
        requires updates { All (λ call. is_update call.call ≡ true) kept.now }
        requires fetching { IsFetching self.old.servers self.old.fragment self.old.block kept.now queue.now.items 0 basis at ptr }
        requires whole { is_whole ptr bytes ≡ true }
        ensures put { OnOk result.1 (self.new ≡ caches self.old ptr bytes) }
        ensures basis { OnOk result.1 (result.0 ≡ with_block basis at ptr bytes) }
        ensures ok { IfOk result.1 (IsAhead self.old kept.now queue.now.items (with_block basis at ptr bytes)) }
        ensures err { OnErr result.1 (self.new ≡ self.old) }
        ensures same { OnErr result.1 (result.0 ≡ basis) }
        ensures worn { IsErrOf result.1 Worn → CannotGo self.old kept.now (with_block basis at ptr bytes) }
    {
        let Ok(copy) = bytes.copy(alloc) else {
            return (basis, Err(LogFault::NoMemory));
        };
        let basis = with_block(basis, at, ptr, bytes);
        match self.ahead_put(alloc, kept, queue, &basis, at, ptr, copy) {
            Ok(ahead) => (basis, Ok(ahead)),
            Err(fault) => (with_block(basis, at, ptr, no_bytes(alloc)), Err(fault)),
        }
    }

    /// A block's bytes have come. After an error the desk is as before, and the read is handed back.
    fn block_came(
        &mut self,
        alloc: Global,
        kept: &[Numbered],
        queue: &VecDeque<Numbered>,
        read: Fetching,
        bytes: ByteList,
    ) -> Result<Next, (LogFault, Fetching)>
        requires updates { All (λ call. is_update call.call ≡ true) kept.now }
        requires fetching { IsFetching self.old.servers self.old.fragment self.old.block kept.now queue.now.items 0 read.basis read.at read.ptr }
        ensures ok { IfOk result (λ next. BytesGive self.old kept.now queue.now.items read.basis read.at read.ptr bytes (record { desk = self.new; next = next })) }
        ensures err { OnErr result (self.new ≡ self.old) }
        ensures back { IfErr result (λ e. e.1 ≡ read) }
        ensures worn { IfErr result (λ e. e.0 ≡ Worn → CannotGo self.old kept.now (with_block read.basis read.at read.ptr bytes)) }
    {
        if !is_whole(&read.ptr, &bytes) {
            return Ok(Next::Step(Step::Lookup));
        }
        let Fetching {
            basis,
            at,
            ptr,
            plan,
        } = read;
        let (basis, ahead) = self.ahead_with(alloc, kept, queue, basis, at, ptr, bytes);
        match ahead {
            Ok(ahead) => Ok(self.go_on(basis, ahead)),
            Err(fault) => Err((
                fault,
                Fetching {
                    basis,
                    at,
                    ptr,
                    plan,
                },
            )),
        }
    }

    /// Goes on with what a response that brings bytes made of a copy of the read.
    fn took(
        &mut self,
        alloc: Global,
        kept: &[Numbered],
        queue: &VecDeque<Numbered>,
        read: Fetching,
        fed: (ReadPlan, Got),
        serving: u32,
    ) -> Result<Next, (LogFault, Fetching)>
        requires updates { All (λ call. is_update call.call ≡ true) kept.now }
        requires fetching { IsFetching self.old.servers self.old.fragment self.old.block kept.now queue.now.items 0 read.basis read.at read.ptr }
        ensures ok { IfOk result (λ next. GotGives self.old kept.now queue.now.items read.basis read.at read.ptr fed.0 serving fed.1 (record { desk = self.new; next = next })) }
        ensures err { OnErr result (self.new ≡ self.old) }
        ensures back { IfErr result (λ e. e.1 ≡ read) }
        ensures worn { IfErr result (λ e. e.0 ≡ Worn → GotWears self.old kept.now read.basis read.at read.ptr fed.1) }
    {
        let (plan, got) = fed;
        match got {
            Got::Bytes(bytes) => self.block_came(alloc, kept, queue, read, bytes),
            got => Ok(lacked(Fetching { plan, ..read }, got, serving)),
        }
    }

    /// Takes the response to a fetch. After an error the desk is as before, and the read is handed back.
    pub(crate) fn fetched(
        &mut self,
        alloc: Global,
        kept: &[Numbered],
        queue: &VecDeque<Numbered>,
        read: Fetching,
        response: &Response,
        serving: u32,
    ) -> Result<Next, (LogFault, Fetching)>
        requires updates { All (λ call. is_update call.call ≡ true) kept.now }
        requires fetching { IsFetching self.old.servers self.old.fragment self.old.block kept.now queue.now.items 0 read.basis read.at read.ptr }
        requires answers { Answers read.plan.servers (asked read.plan) response.now }
        requires memory { HasMemory response.now }
        ensures ok { IfOk result (λ next. GotGives self.old kept.now queue.now.items read.basis read.at read.ptr (fed read.plan response.now).0 serving (fed read.plan response.now).1 (record { desk = self.new; next = next })) }
        ensures err { OnErr result (self.new ≡ self.old) }
        ensures cause { OnErr result (brings_bytes response.now ≡ true) }
        ensures back { IfErr result (λ e. e.1 ≡ read) }
        ensures worn { IfErr result (λ e. e.0 ≡ Worn → GotWears self.old kept.now read.basis read.at read.ptr (fed read.plan response.now).1) }
    {
        if !brings_bytes(response) {
            return Ok(lacking(alloc, read, response, serving));
        }
        match fed_copy(alloc, &read.plan, response) {
            Ok(fed) => self.took(alloc, kept, queue, read, fed, serving),
            Err(NoMemory) => Err((LogFault::NoMemory, read)),
        }
    }
}
