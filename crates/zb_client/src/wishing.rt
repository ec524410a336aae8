ghost use Rattle.std.specs.Prelude.{◌≡◌, ◌<◌, IfOk, map, true, Option, option_map, slice_get};
ghost use Rattle.zb_types.specs.declared.ids.ServerId.{ServerId};
ghost use Rattle.zb_types.specs.declared.requests.Request.{Request};
ghost use Rattle.zb_basis.specs.Looking.{ask_of, asks_of};
ghost use Rattle.zb_client.specs.Seen.{kind_of};
ghost use Rattle.zb_client.specs.Wishing.{wish_of, step_wish, lookup_of, queue_lookup, read_lookup, request_wish};

use crate::client::Client;
use crate::steps::{AskList, Lookup, Turn, Wish};
use std::alloc::Global;
use zb_basis::{Numbered, ask_of};
use zb_types::{Call, Kind, Mem, Request, ServerId};
use zb_work::{Step, members_of};

/// How many Stale answers a batch may have before its lookup holds the file manager.
const MOST_TRIES: u32 = 3;

/// What is asked for each of some calls.
fn asks_of(alloc: Global, block: u32, calls: &[Numbered]) -> Mem<AskList>
    requires { 0 < block }
    ensures { IfOk result (λ asks. asks ≡ asks_of block calls.now) }
{
    let mut asks = AskList::new(alloc)?;
    for call in calls {
        asks.push(ask_of(block, &call.call))?;
    }
    Ok(asks)
}

/// What a read is to find.
fn read_lookup(alloc: Global, block: u32, call: &Call) -> Mem<Lookup>
    requires { 0 < block }
    ensures { IfOk result (λ lookup. lookup ≡ read_lookup block call.now) }
{
    match call {
        Call::Read { .. } => {
            let mut asks = AskList::new(alloc)?;
            asks.push(ask_of(block, call))?;
            Ok(Lookup::Files { hold: false, asks })
        }
        call => Ok(Lookup::Names(call.copy(alloc)?)),
    }
}

/// The wish for a request of a plan, with its generation.
fn request_wish(alloc: Global, generation: u64, asked: Option<(ServerId, &Request)>) -> Mem<Wish>
    ensures { IfOk result (λ wish. wish ≡ request_wish generation (option_map (λ p. (p.0, p.1.now)) asked.entry)) }
{
    match asked {
        Some((server, request)) => Ok(Wish::Server(server, generation, request.copy(alloc)?)),
        None => Ok(Wish::Idle),
    }
}

impl Client {
    /// What the lookup that stands is to find.
    fn lookup(&self, alloc: Global, tries: u32) -> Mem<Lookup>
        ensures { IfOk result (λ lookup. lookup ≡ lookup_of self.now tries self.now.kept) }
    {
        let block = self.desk.geo().block;
        if !self.kept.is_empty() {
            let asks = asks_of(alloc, block, self.run())?;
            let hold = tries >= MOST_TRIES;
            return Ok(Lookup::Files { hold, asks });
        }
        match self.queue.front() {
            Some(read) => read_lookup(alloc, block, &read.call),
            None => Ok(Lookup::Files {
                hold: false,
                asks: AskList::new(alloc)?,
            }),
        }
    }

    /// What a step wants.
    fn step_wish(&self, alloc: Global, tries: u32, step: &Step) -> Mem<Wish>
        ensures { IfOk result (λ wish. wish ≡ step_wish self.now tries step.now) }
    {
        match step {
            Step::Lookup => Ok(Wish::Turn(Turn::Lookup(self.lookup(alloc, tries)?))),
            Step::Fetch { basis, plan, .. } => {
                let generation = members_of(basis.found.slice()).generation;
                request_wish(alloc, generation, plan.next())
            }
            Step::Store { formed, .. } => {
                request_wish(alloc, formed.sealed.members.generation, formed.plan.next())
            }
            Step::Mark { server, generation } => Ok(Wish::Turn(Turn::Mark {
                server: *server,
                generation: *generation,
            })),
            Step::Commit { sealed, .. } => Ok(Wish::Turn(Turn::Commit {
                batch: sealed.batch.copy(alloc)?,
                pieces: sealed.placed.pieces.copy(alloc)?,
                generation: sealed.members.generation,
            })),
        }
    }

    /// What the next step wants: nothing, a move inside, a request to a server, or a turn of the file manager. It is
    /// nothing only where there is no work and no call is queued.
    pub fn wish(&self, alloc: Global) -> Mem<Wish>
        requires { self.now.is_ready ≡ true }
        ensures exact { IfOk result (λ wish. wish ≡ wish_of self.now) }
        ensures idle { wish_of self.now ≡ Wish.Idle → kind_of self.now ≡ Kind.Idle }
    {
        match &self.task {
            Some(task) => self.step_wish(alloc, task.tries, &task.step),
            None if self.queue.is_empty() => Ok(Wish::Idle),
            None => Ok(Wish::Inside),
        }
    }
}
