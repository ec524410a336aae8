ghost use Rattle.std.specs.Prelude.{◌≡◌, IfOk, true, Option, option_map};
ghost use Rattle.zb_cleaner.specs.Seen.{kind_of};
ghost use Rattle.zb_cleaner.specs.Wishing.{delete_wish, request_wish, wish_of, work_wish};

use crate::cleaner::Cleaner;
use crate::steps::{Turn, Wish};
use std::alloc::Global;
use zb_pass::{Sweeping, Work};
use zb_types::{FragId, Kind, Mem, Request, ServerId};
use zb_usage::Chooses;

/// The wish for a request of a plan, with its generation.
fn request_wish(alloc: Global, generation: u64, asked: Option<(ServerId, &Request)>) -> Mem<Wish>
    ensures { IfOk result (λ wish. wish ≡ request_wish generation (option_map (λ p. (p.0, p.1.now)) asked.entry)) }
{
    match asked {
        Some((server, request)) => Ok(Wish::Server(server, generation, request.copy(alloc)?)),
        None => Ok(Wish::Idle),
    }
}

/// The first of some strays is to be deleted.
fn delete_wish(sweep: &Sweeping, left: &[FragId]) -> Wish
    ensures { result ≡ delete_wish sweep.now left.now }
{
    let Some((id, _)) = left.split_first() else {
        return Wish::Idle;
    };
    Wish::Server(
        sweep.server,
        sweep.status.members.generation,
        Request::Delete { id: *id },
    )
}

/// What the work wants.
fn work_wish(alloc: Global, work: &Work) -> Mem<Wish>
    ensures { IfOk result (λ wish. wish ≡ work_wish work.now) }
{
    match work {
        Work::Lookup(_) => Ok(Wish::Turn(Turn::Lookup)),
        Work::Fetch { cleaning, plan } => {
            request_wish(alloc, cleaning.members.generation, plan.next())
        }
        Work::Store { formed, .. } => {
            request_wish(alloc, formed.sealed.members.generation, formed.plan.next())
        }
        Work::Mark {
            server,
            generation,
            ..
        } => Ok(Wish::Turn(Turn::Mark {
            server: *server,
            generation: *generation,
        })),
        Work::Commit { sealed, .. } => Ok(Wish::Turn(Turn::Commit {
            batch: sealed.batch.copy(alloc)?,
            pieces: sealed.placed.pieces.copy(alloc)?,
            generation: sealed.members.generation,
        })),
        Work::Retire { target, .. } => Ok(Wish::Turn(Turn::Retire {
            log: target.log,
            stripe: target.stripe,
        })),
        Work::Sweep { sweep, after } => Ok(Wish::Server(
            sweep.server,
            sweep.status.members.generation,
            Request::Identify { after: *after },
        )),
        Work::Delete { sweep, left, .. } => Ok(delete_wish(sweep, left.slice())),
    }
}

impl<C: Chooses> Cleaner<C> {
    /// What the next step wants: nothing, a request to a server, or a turn of the file manager.
    pub fn wish(&self, alloc: Global) -> Mem<Wish>
        requires { self.now.is_ready ≡ true }
        ensures { IfOk result (λ wish. wish ≡ wish_of self.now) }
    {
        match &self.work {
            Some(work) => work_wish(alloc, work),
            None if self.jobs == 0 => Ok(Wish::Idle),
            None => Ok(Wish::Turn(Turn::Pick)),
        }
    }
}
