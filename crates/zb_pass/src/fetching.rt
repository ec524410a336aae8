ghost use Rattle.std.specs.Prelude.{◌≡◌, ℕ, List, ◌++◌, ◌∷◌, [], IfOk, IfErr, OnErr, length, true, false, Some, slice_get};
ghost use Rattle.zb_delta.specs.declared.delta.Body.{Body as BodyOf};
ghost use Rattle.zb_stripe.specs.Reading.{asked, fed, Answers};
ghost use Rattle.zb_log.specs.declared.placed.LogFault.TheVariants.{Worn};
ghost use Rattle.zb_steps.specs.Going.{is_whole};
ghost use Rattle.zb_steps.specs.Serving.{HasMemory, brings_bytes, serves};
ghost use Rattle.zb_pass.specs.Ahead.{IsAhead};
ghost use Rattle.zb_pass.specs.Copying.{next_body};
ghost use Rattle.zb_pass.specs.Fitting.{IsCleaning, IsFetching};
ghost use Rattle.zb_pass.specs.Going.{BytesGive, CannotGo, GotGives, GotWears, lacked, unreached, with_block};

use crate::work::{Ahead, BlocksList, Cleaning, Copies, Fetching, Next, Work};
use crate::writer::Writer;
use std::alloc::Global;
use zb_log::LogFault;
use zb_stripe::{Got, ReadPlan};
use zb_types::{ByteList, Cause, Mem, NoMemory, Pass, Response, ServerId};

/// Whether a server serves.
pub(crate) fn serves(serving: u32, server: ServerId) -> bool
    ensures { result ≡ serves serving server }
{
    let place = server.0.saturating_sub(1);
    if place > 31 {
        return false;
    }
    serving >> u32::from(place) & 1 == 1
}

/// Whether a response brings bytes.
fn brings_bytes(response: &Response) -> bool
    ensures { result ≡ brings_bytes response.now }
{
    matches!(response, Response::Bytes(_) | Response::Parity { .. })
}

/// Two servers didn't answer: where one of them serves again, the members are looked up anew.
fn unreached(cleaning: Cleaning, a: ServerId, b: ServerId, serving: u32) -> Next
    ensures { result ≡ unreached cleaning a b serving }
{
    if serves(serving, a) || serves(serving, b) {
        return Next::Work(Work::Lookup(cleaning));
    }
    Next::End(Pass::Failed(Cause::Unreachable { a, b }))
}

/// How a pass goes on where a response to a read brought no block.
fn lacked(read: Fetching, got: Got, serving: u32) -> Next
    ensures { result ≡ lacked read.cleaning read.plan serving got }
{
    match got {
        Got::More => Next::Work(Work::Fetch {
            cleaning: read.cleaning,
            plan: read.plan,
        }),
        Got::Unreachable { a, b } => unreached(read.cleaning, a, b, serving),
        Got::Bytes(_) | Got::Gone | Got::Old { .. } => Next::Work(Work::Lookup(read.cleaning)),
    }
}

/// Feeds a response without bytes to a read.
fn lacking(alloc: Global, read: Fetching, response: &Response, serving: u32) -> Next
    requires answers { Answers read.plan.servers (asked read.plan) response.now }
    requires memory { HasMemory response.now }
    requires lacks { brings_bytes response.now ≡ false }
    ensures { result ≡ lacked read.cleaning (fed read.plan response.now).0 serving (fed read.plan response.now).1 }
{
    let Fetching { cleaning, plan } = read;
    let mut plan = plan;
    let Ok(got) = plan.feed(alloc, response) else {
        return Next::Work(Work::Lookup(cleaning));
    };
    lacked(Fetching { cleaning, plan }, got, serving)
}

/// Feeds a response to a copy of a read.
fn fed_copy(alloc: Global, plan: &ReadPlan, response: &Response) -> Mem<(ReadPlan, Got)>
    requires { Answers plan.now.servers (asked plan.now) response.now }
    ensures fed { IfOk result (λ pair. pair ≡ fed plan.now response.now) }
    ensures ptr { IfOk result (λ pair. pair.0.ptr ≡ plan.now.ptr) }
{
    let mut plan = plan.copy(alloc)?;
    let got = plan.feed(alloc, response)?;
    Ok((plan, got))
}

/// Puts the bytes of the next block behind the others. After want of memory all is as before.
fn push(blocks: BlocksList, bytes: ByteList) -> Result<BlocksList, BlocksList>
    ensures ok { IfOk result (λ all. all ≡ blocks ++ bytes ∷ []) }
    ensures err { IfErr result (λ all. all ≡ blocks) }
{
    let mut items = blocks.into_items();
    if items.push(bytes).is_err() {
        return Err(BlocksList::of(items));
    }
    Ok(BlocksList::of(items))
}

/// Takes the last block off.
fn pop(blocks: BlocksList) -> BlocksList
    ensures { (front : List (List ℕ)) (last : List ℕ) → blocks ≡ front ++ last ∷ [] → result ≡ front }
{
    let mut items = blocks.into_items();
    drop(items.pop());
    BlocksList::of(items)
}

/// The pass with one more block. After want of memory it is handed back as it was.
fn with_block(cleaning: Cleaning, bytes: ByteList) -> Result<Cleaning, Cleaning>
    ensures ok { IfOk result (λ with. with ≡ with_block cleaning bytes) }
    ensures err { IfErr result (λ before. before ≡ cleaning) }
{
    let Cleaning {
        target,
        members,
        copies: Copies { live, blocks },
    } = cleaning;
    match push(blocks, bytes) {
        Ok(blocks) => Ok(Cleaning {
            target,
            members,
            copies: Copies { live, blocks },
        }),
        Err(blocks) => Err(Cleaning {
            target,
            members,
            copies: Copies { live, blocks },
        }),
    }
}

/// The pass without its last block.
fn without_block(cleaning: Cleaning) -> Cleaning
    ensures { (before : Cleaning) (bytes : List ℕ) → cleaning ≡ with_block before bytes → result ≡ before }
{
    let Cleaning {
        target,
        members,
        copies: Copies { live, blocks },
    } = cleaning;
    let blocks = pop(blocks);
    Cleaning {
        target,
        members,
        copies: Copies { live, blocks },
    }
}

/// Whether these are all bytes of the first block that hasn't come.
fn is_whole(copies: &Copies, bytes: &ByteList) -> bool
    ensures { (body : BodyOf) → next_body copies.now ≡ Some body → result ≡ is_whole body.now bytes.now }
{
    match copies.live.get(copies.blocks.len()) {
        Some(body) => bytes.len() == body.now.len as usize && bytes.len() > 0,
        None => false,
    }
}

impl Writer {
    /// What lies ahead of a pass with one more block. After an error the pass is handed back as it was.
    fn ahead_with(
        &self,
        alloc: Global,
        cleaning: Cleaning,
        bytes: ByteList,
    ) -> Result<(Cleaning, Ahead), (LogFault, Cleaning)>
        requires { IsCleaning self.now.servers self.now.fragment self.now.block (with_block cleaning bytes) }
        ensures with { IfOk result (λ r. r.0 ≡ with_block cleaning bytes) }
        ensures ok { IfOk result (λ r. IsAhead self.now (with_block cleaning bytes) r.1) }
        ensures back { IfErr result (λ e. e.1 ≡ cleaning) }
        ensures worn { IfErr result (λ e. e.0 ≡ Worn → CannotGo self.now cleaning) }
    {
        let cleaning = match with_block(cleaning, bytes) {
            Ok(cleaning) => cleaning,
            Err(cleaning) => return Err((LogFault::NoMemory, cleaning)),
        };
        match self.ahead(alloc, &cleaning) {
            Ok(ahead) => Ok((cleaning, ahead)),
            Err(fault) => Err((fault, without_block(cleaning))),
        }
    }

    /// A block's bytes have come. After an error the writer is as before, and the read is handed back.
    fn block_came(
        &mut self,
        alloc: Global,
        read: Fetching,
        bytes: ByteList,
    ) -> Result<Next, (LogFault, Fetching)>
        requires cleaning { IsCleaning self.old.servers self.old.fragment self.old.block read.cleaning }
        requires fetching { IsFetching read.cleaning.copies read.plan }
        ensures ok { IfOk result (λ next. BytesGive self.old read.cleaning read.plan bytes (record { writer = self.new; next = next })) }
        ensures err { OnErr result (self.new ≡ self.old) }
        ensures back { IfErr result (λ e. e.1 ≡ read) }
        ensures worn { IfErr result (λ e. e.0 ≡ Worn → CannotGo self.old read.cleaning) }
    {
        if !is_whole(&read.cleaning.copies, &bytes) {
            return Ok(Next::Work(Work::Lookup(read.cleaning)));
        }
        let Fetching { cleaning, plan } = read;
        match self.ahead_with(alloc, cleaning, bytes) {
            Ok((cleaning, ahead)) => Ok(Next::Work(self.go_on(cleaning, ahead))),
            Err((fault, cleaning)) => Err((fault, Fetching { cleaning, plan })),
        }
    }

    /// Goes on with what a response that brings bytes made of a copy of the read.
    fn took(
        &mut self,
        alloc: Global,
        read: Fetching,
        fed: (ReadPlan, Got),
        serving: u32,
    ) -> Result<Next, (LogFault, Fetching)>
        requires cleaning { IsCleaning self.old.servers self.old.fragment self.old.block read.cleaning }
        requires fetching { IsFetching read.cleaning.copies read.plan }
        requires ptr { fed.0.ptr ≡ read.plan.ptr }
        ensures ok { IfOk result (λ next. GotGives self.old read.cleaning fed.0 serving fed.1 (record { writer = self.new; next = next })) }
        ensures err { OnErr result (self.new ≡ self.old) }
        ensures back { IfErr result (λ e. e.1 ≡ read) }
        ensures worn { IfErr result (λ e. e.0 ≡ Worn → GotWears self.old read.cleaning fed.1) }
    {
        let (plan, got) = fed;
        match got {
            Got::Bytes(bytes) => self.block_came(alloc, read, bytes),
            got => Ok(lacked(Fetching { plan, ..read }, got, serving)),
        }
    }

    /// Takes the response to a fetch. After an error the writer is as before, and the read is handed back.
    pub(crate) fn fetched(
        &mut self,
        alloc: Global,
        read: Fetching,
        response: &Response,
        serving: u32,
    ) -> Result<Next, (LogFault, Fetching)>
        requires cleaning { IsCleaning self.old.servers self.old.fragment self.old.block read.cleaning }
        requires fetching { IsFetching read.cleaning.copies read.plan }
        requires answers { Answers read.plan.servers (asked read.plan) response.now }
        requires memory { HasMemory response.now }
        ensures ok { IfOk result (λ next. GotGives self.old read.cleaning (fed read.plan response.now).0 serving (fed read.plan response.now).1 (record { writer = self.new; next = next })) }
        ensures err { OnErr result (self.new ≡ self.old) }
        ensures cause { OnErr result (brings_bytes response.now ≡ true) }
        ensures back { IfErr result (λ e. e.1 ≡ read) }
        ensures worn { IfErr result (λ e. e.0 ≡ Worn → GotWears self.old read.cleaning (fed read.plan response.now).1) }
    {
        if !brings_bytes(response) {
            return Ok(lacking(alloc, read, response, serving));
        }
        match fed_copy(alloc, &read.plan, response) {
            Ok(fed) => self.took(alloc, read, fed, serving),
            Err(NoMemory) => Err((LogFault::NoMemory, read)),
        }
    }
}
