use crate::servers::{Says, other_than, response};
use std::alloc::Global;
use zb_basis::{Ask, FoundList};
use zb_client::{Answer, Client, Lookup, ReplyList, Told, Turn, Wish};
use zb_types::{
    BlockList, ByteList, Call, CommitFault, Fid, Found, Geometry, Kind, LogId, MarkFault, Mem,
    Members, NoMemory, Path, Ptr, Reply, Response, State,
};

/// What a client is answered, in the form that its wish has.
#[derive(Clone, Copy)]
pub enum Give {
    Inside,
    /// Files without blocks.
    Found,
    /// Files with one block of six bytes, at the first place that is asked.
    Blocks,
    Named,
    Server(Says),
    Marked,
    NotMarked,
    Committed,
    Stale,
    Regen,
    ManagerDown,
    Doubt,
    /// No answer: the end of a run.
    Flush,
    /// No answer: the batch in doubt was committed.
    Settle,
}

/// A call of file 1.
#[derive(Clone, Copy)]
pub enum Do {
    Create,
    /// Six bytes at this offset.
    Write(u32),
    Truncate(u32),
    Sync,
    /// So many bytes at this offset.
    Read(u32, u32),
    Stat,
}

/// Client 1 of a system with three servers, fragments of 256 bytes and blocks of 64.
pub fn made(alloc: Global) -> Mem<Client> {
    match Geometry::new(3, 1, 256, 64, 32) {
        Ok(geo) => Client::new(alloc, &geo, 1, LogId(1)),
        Err(_) => Err(NoMemory),
    }
}

fn path(alloc: Global) -> Mem<Path> {
    match Path::parse(alloc, b"/a")? {
        Some(path) => Ok(path),
        None => Err(NoMemory),
    }
}

fn write(alloc: Global, offset: u32) -> Mem<Call> {
    Ok(Call::Write {
        fid: Fid(1),
        offset,
        bytes: ByteList::from_slice(alloc, b"abcdef")?,
    })
}

fn call_of(alloc: Global, what: Do) -> Mem<Call> {
    match what {
        Do::Create => Ok(Call::Create(path(alloc)?)),
        Do::Write(offset) => write(alloc, offset),
        Do::Truncate(length) => Ok(Call::Truncate {
            fid: Fid(1),
            length,
        }),
        Do::Sync => Ok(Call::Sync),
        Do::Read(offset, len) => Ok(Call::Read {
            fid: Fid(1),
            offset,
            len,
        }),
        Do::Stat => Ok(Call::Stat(path(alloc)?)),
    }
}

/// Queues a call.
pub fn push(client: &mut Client, alloc: Global, number: u64, what: Do) -> Mem<()> {
    client.push(alloc, number, call_of(alloc, what)?)
}

/// What the client wants.
pub fn wish(client: &mut Client, alloc: Global) -> Mem<Wish> {
    client.ready(alloc)?;
    client.wish(alloc)
}

/// The client hears an answer. None where it doesn't fit its wish, or the log is worn.
pub fn hear(client: &mut Client, alloc: Global, answer: Answer) -> Mem<Option<Told>> {
    client.ready(alloc)?;
    if !client.fits(&answer) {
        return Ok(None);
    }
    match client.hear(alloc, answer) {
        Ok(told) => Ok(Some(told)),
        Err(_) => Ok(None),
    }
}

/// Begins the commit of all kept calls, where the client is idle and keeps some.
pub fn flush(client: &mut Client) {
    if client.kind() == Kind::Idle && client.kept(0).is_some() {
        client.flush();
    }
}

/// Ends a doubt, where there is one.
pub fn settle(client: &mut Client, committed: bool) {
    if client.doubt().is_some() {
        client.settle(committed);
    }
}

/// How many blocks lie before byte 100 of a stripe.
const LONG: u32 = 67_108_864;

const MEMBERS: Members = Members {
    state: State::Whole,
    generation: 1,
};

fn block_at(ask: &Ask) -> (u32, Ptr) {
    let ptr = Ptr {
        log: LogId(1),
        stripe: 0,
        offset: 100 + ask.first % 16,
        len: 6,
    };
    (ask.first, ptr)
}

fn empty_file(alloc: Global) -> Mem<Found> {
    Ok(Found {
        version: 1,
        length: 0,
        blocks: BlockList::new(alloc)?,
        members: MEMBERS,
    })
}

fn file_with_block(alloc: Global, ask: &Ask) -> Mem<Found> {
    let mut blocks = BlockList::new(alloc)?;
    if ask.count > 0 {
        blocks.push(block_at(ask))?;
    }
    Ok(Found {
        version: 1,
        length: LONG,
        blocks,
        members: MEMBERS,
    })
}

fn file(alloc: Global, ask: &Ask, give: Give) -> Mem<Found> {
    if matches!(give, Give::Blocks) {
        return file_with_block(alloc, ask);
    }
    empty_file(alloc)
}

fn files(alloc: Global, asks: &[Ask], give: Give) -> Mem<Answer> {
    let mut list = FoundList::new(alloc)?;
    for ask in asks {
        list.push(file(alloc, ask, give)?)?;
    }
    Ok(Answer::Found(list))
}

fn committed(alloc: Global, count: usize) -> Mem<Answer> {
    let mut list = ReplyList::new(alloc)?;
    for _ in 0..count {
        list.push(Reply::Done)?;
    }
    Ok(Answer::Committed(list))
}

/// An answer that needs no memory.
fn plain(give: Give) -> Answer {
    match give {
        Give::Inside => Answer::Inside,
        Give::Named => Answer::Named(Reply::Dir),
        Give::Marked => Answer::Marked,
        Give::Stale => Answer::NotCommitted(CommitFault::Stale {
            fid: Fid(1),
            seen: 1,
            now: 2,
        }),
        Give::Regen => Answer::NotCommitted(CommitFault::Regen { seen: 1, now: 2 }),
        Give::Doubt => Answer::Doubt,
        _ => Answer::Down,
    }
}

/// The answer to a wish, where these servers serve after it: bit I - 1 is that of server I.
pub fn answer(alloc: Global, wish: &Wish, give: Give, serving: u32) -> Mem<Answer> {
    match (give, wish) {
        (Give::Server(says), Wish::Server(_, _, request)) => Ok(Answer::Server {
            response: response(alloc, request, says)?,
            serving,
        }),
        (Give::Server(_), _) => Ok(Answer::Server {
            response: Response::Done,
            serving,
        }),
        (Give::Found | Give::Blocks, Wish::Turn(Turn::Lookup(Lookup::Files { asks, .. }))) => {
            files(alloc, asks.slice(), give)
        }
        (Give::Committed, Wish::Turn(Turn::Commit { batch, .. })) => {
            committed(alloc, batch.ops.len())
        }
        (Give::NotMarked, Wish::Turn(Turn::Mark { server, .. })) => Ok(Answer::NotMarked(
            MarkFault::Refused {
                other: other_than(*server),
            },
        )),
        _ => Ok(plain(give)),
    }
}

/// One step of the client, which is answered so. None where the answer doesn't fit.
pub fn step(client: &mut Client, alloc: Global, give: Give, serving: u32) -> Mem<Option<Told>> {
    let wish = wish(client, alloc)?;
    let answer = answer(alloc, &wish, give, serving)?;
    hear(client, alloc, answer)
}
