ghost use Rattle.std.specs.Prelude.{◌<◌, ◌≤◌, length};

use crate::servers::{Says, response};
use std::alloc::Global;
use zb_cleaner::{Answer, Cleaner, Told, Wish};
use zb_delta::Body;
use zb_pass::BodyList;
use zb_types::{
    CommitFault, Fid, Geometry, HeldList, HeldUse, LogId, LogUse, LogUseList, MarkFault, Mem,
    Members, NoMemory, Ptr, RetireFault, ServerId, State, Status,
};
use zb_usage::{Chooses, StripeUse};

/// What the cleaner is answered, in the form that its wish has.
#[derive(Clone, Copy)]
pub enum Give {
    /// A stripe that may be cleaned, with so many blocks of six bytes.
    Picked(u32),
    /// No stripe that may be cleaned.
    Nothing,
    Server(Says),
    Seen,
    Marked,
    NotMarked,
    Committed,
    Regen,
    Retired,
    Needed,
    Mending,
    ManagerDown,
    Doubt,
}

/// A policy that takes the first stripe.
#[derive(Drop)]
pub struct First;

impl Chooses for First {
    fn choose(&self, _list: &[StripeUse]) -> usize {
        0
    }
}

/// The cleaner of a system with three servers, fragments of 256 bytes and blocks of 64, with log 2.
pub fn made(alloc: Global) -> Mem<Cleaner<First>> {
    match Geometry::new(3, 1, 256, 64, 32) {
        Ok(geo) => Cleaner::new(alloc, &geo, LogId(2), First),
        Err(_) => Err(NoMemory),
    }
}

/// What the cleaner wants.
fn wish(cleaner: &mut Cleaner<First>, alloc: Global) -> Mem<Wish> {
    cleaner.ready(alloc)?;
    cleaner.wish(alloc)
}

/// The cleaner hears an answer. None where it doesn't fit its wish, or the log is worn.
fn hear(cleaner: &mut Cleaner<First>, alloc: Global, answer: Answer) -> Mem<Option<Told>> {
    cleaner.ready(alloc)?;
    if !cleaner.fits(&answer) {
        return Ok(None);
    }
    match cleaner.hear(alloc, answer) {
        Ok(told) => Ok(Some(told)),
        Err(_) => Ok(None),
    }
}

const MEMBERS: Members = Members {
    state: State::Whole,
    generation: 1,
};

const LOGS: [LogUse; 2] = [
    LogUse {
        log: LogId(1),
        live: true,
        last: Some(3),
        batch: 5,
    },
    LogUse {
        log: LogId(2),
        live: true,
        last: None,
        batch: 0,
    },
];

const HELD: [HeldUse; 1] = [HeldUse {
    log: LogId(1),
    stripe: 1,
    end: 256,
    born: 1,
}];

fn status(alloc: Global, held: &[HeldUse]) -> Mem<Status> {
    Ok(Status {
        next: 3,
        members: MEMBERS,
        logs: LogUseList::from_slice(alloc, &LOGS)?,
        held: HeldList::from_slice(alloc, held)?,
    })
}

fn body(block: u32) -> Body {
    Body {
        fid: Fid(1),
        version: 3,
        block,
        was: None,
        now: Ptr {
            log: LogId(1),
            stripe: 1,
            offset: 100,
            len: 6,
        },
    }
}

fn picked(alloc: Global, count: u32) -> Mem<Answer> {
    let mut live = BodyList::new(alloc)?;
    for block in 0..count {
        live.push(body(block))?;
    }
    Ok(Answer::Picked {
        status: status(alloc, &HELD)?,
        live,
    })
}

fn nothing(alloc: Global) -> Mem<Answer> {
    Ok(Answer::Picked {
        status: status(alloc, &[])?,
        live: BodyList::new(alloc)?,
    })
}

fn kept(alloc: Global, fault: RetireFault) -> Mem<Answer> {
    Ok(Answer::NotRetired {
        fault,
        status: status(alloc, &HELD)?,
    })
}

/// An answer that needs no memory.
fn plain(give: Give) -> Answer {
    match give {
        Give::Seen => Answer::Seen(MEMBERS),
        Give::Marked => Answer::Marked,
        Give::NotMarked => Answer::NotMarked(MarkFault::Refused { other: ServerId(1) }),
        Give::Committed => Answer::Committed {
            copied: 1,
            rejected: 0,
        },
        Give::Regen => Answer::NotCommitted(CommitFault::Regen { seen: 1, now: 2 }),
        Give::Doubt => Answer::Doubt,
        _ => Answer::Down,
    }
}

/// The answer to a wish, where these servers serve after it: bit I - 1 is that of server I.
fn answer(alloc: Global, wish: &Wish, give: Give, serving: u32) -> Mem<Answer> {
    match (give, wish) {
        (Give::Server(says), Wish::Server(_, _, request)) => Ok(Answer::Server {
            response: response(alloc, request, says)?,
            serving,
        }),
        (Give::Picked(count), _) => picked(alloc, count),
        (Give::Nothing, _) => nothing(alloc),
        (Give::Retired, _) => Ok(Answer::Retired(status(alloc, &[])?)),
        (Give::Needed, _) => kept(alloc, RetireFault::Needed { entry: 1 }),
        (Give::Mending, _) => kept(
            alloc,
            RetireFault::Mending {
                server: ServerId(1),
            },
        ),
        _ => Ok(plain(give)),
    }
}

/// One step of the cleaner, which is answered so. None where the answer doesn't fit.
pub fn step(
    cleaner: &mut Cleaner<First>,
    alloc: Global,
    give: Give,
    serving: u32,
) -> Mem<Option<Told>> {
    let wish = wish(cleaner, alloc)?;
    let answer = answer(alloc, &wish, give, serving)?;
    hear(cleaner, alloc, answer)
}
