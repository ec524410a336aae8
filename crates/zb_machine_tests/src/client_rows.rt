use crate::client_bench::{Do, Give, flush, made, push, settle, step, wish};
use crate::servers::Says;
use std::alloc::Global;
use std::test::Fail;
use zb_client::{Client, Lookup, Told, Turn, Wish};
use zb_types::{Cause, Kind, Mem, Outcome, Reply, Said};

/// Why a call can't go on.
#[derive(Clone, Copy, PartialEq, Eq)]
enum Why {
    Down,
    Unreachable(u8, u8),
    Space(u8),
}

/// What a line says of a call.
#[derive(Clone, Copy, PartialEq, Eq)]
enum What {
    Done,
    Bytes(usize),
    Dir,
    Buffered,
    Kept(Why),
    Failed(Why),
    Unfinished(Why),
    Other,
}

/// One step: what it is answered, the kind of the step behind it, and up to two lines, each with the number of its call.
type Row = (Give, Kind, Option<(u64, What)>, Option<(u64, What)>);

const DONE: Give = Give::Server(Says::Done);

const BYTES: Give = Give::Server(Says::Bytes);

const DOWN: Give = Give::Server(Says::Down);

const GONE: Give = Give::Server(Says::Gone);

const OLD: Give = Give::Server(Says::Old);

const NO_SLOT: Give = Give::Server(Says::NoSlot);

/// A write is buffered, and a sync commits both.
const BUFFERED: [Row; 6] = [
    (Give::Inside, Kind::Call, Some((1, What::Buffered)), None),
    (Give::Inside, Kind::Lookup, None, None),
    (Give::Found, Kind::Store, None, None),
    (DONE, Kind::Store, None, None),
    (DONE, Kind::Commit, None, None),
    (
        Give::Committed,
        Kind::Idle,
        Some((1, What::Done)),
        Some((2, What::Done)),
    ),
];

/// The eighth update commits all.
const EIGHTH: [Row; 8] = [
    (Give::Inside, Kind::Call, Some((1, What::Buffered)), None),
    (Give::Inside, Kind::Call, Some((2, What::Buffered)), None),
    (Give::Inside, Kind::Call, Some((3, What::Buffered)), None),
    (Give::Inside, Kind::Call, Some((4, What::Buffered)), None),
    (Give::Inside, Kind::Call, Some((5, What::Buffered)), None),
    (Give::Inside, Kind::Call, Some((6, What::Buffered)), None),
    (Give::Inside, Kind::Call, Some((7, What::Buffered)), None),
    (Give::Inside, Kind::Lookup, None, None),
];

/// An operation on names stands alone in its batch.
const NAMES_ALONE: [Row; 7] = [
    (Give::Inside, Kind::Call, Some((1, What::Buffered)), None),
    (Give::Inside, Kind::Lookup, None, None),
    (Give::Found, Kind::Store, None, None),
    (DONE, Kind::Store, None, None),
    (DONE, Kind::Commit, None, None),
    (Give::Committed, Kind::Lookup, Some((1, What::Done)), None),
    (Give::Found, Kind::Store, None, None),
];

/// A write of a part of a block fetches the block, once for the batch.
const IN_PART: [Row; 5] = [
    (Give::Inside, Kind::Call, Some((1, What::Buffered)), None),
    (Give::Inside, Kind::Call, Some((2, What::Buffered)), None),
    (Give::Inside, Kind::Lookup, None, None),
    (Give::Blocks, Kind::Fetch, None, None),
    (BYTES, Kind::Store, None, None),
];

/// A store ends as its server says.
const STORES: [Row; 8] = [
    (Give::Inside, Kind::Lookup, None, None),
    (Give::Found, Kind::Store, None, None),
    (DOWN, Kind::Mark, None, None),
    (Give::Marked, Kind::Lookup, None, None),
    (Give::Found, Kind::Store, None, None),
    (OLD, Kind::Lookup, None, None),
    (Give::Found, Kind::Store, None, None),
    (
        NO_SLOT,
        Kind::Idle,
        Some((1, What::Kept(Why::Space(1)))),
        None,
    ),
];

/// Another server doesn't serve either.
const NOT_MARKED: [Row; 4] = [
    (Give::Inside, Kind::Lookup, None, None),
    (Give::Found, Kind::Store, None, None),
    (DOWN, Kind::Mark, None, None),
    (
        Give::NotMarked,
        Kind::Idle,
        Some((1, What::Kept(Why::Unreachable(2, 3)))),
        None,
    ),
];

/// The file manager is down at a mark.
const MARK_DOWN: [Row; 4] = [
    (Give::Inside, Kind::Lookup, None, None),
    (Give::Found, Kind::Store, None, None),
    (DOWN, Kind::Mark, None, None),
    (
        Give::ManagerDown,
        Kind::Idle,
        Some((1, What::Kept(Why::Down))),
        None,
    ),
];

/// A read is fetched once, and then answered from the cache; one of no stored byte isn't fetched.
const READS: [Row; 7] = [
    (Give::Inside, Kind::Lookup, None, None),
    (Give::Blocks, Kind::Fetch, None, None),
    (BYTES, Kind::Call, Some((1, What::Bytes(6))), None),
    (Give::Inside, Kind::Lookup, None, None),
    (Give::Blocks, Kind::Call, Some((2, What::Bytes(6))), None),
    (Give::Inside, Kind::Lookup, None, None),
    (Give::Blocks, Kind::Idle, Some((3, What::Bytes(1))), None),
];

/// A read goes on through the parity.
const PARITY: [Row; 5] = [
    (Give::Inside, Kind::Lookup, None, None),
    (Give::Blocks, Kind::Fetch, None, None),
    (DOWN, Kind::Fetch, None, None),
    (BYTES, Kind::Fetch, None, None),
    (BYTES, Kind::Idle, Some((1, What::Bytes(6))), None),
];

/// A read looks up anew where its block is gone, the server's fence is higher, or a server serves again.
const READ_ANEW: [Row; 8] = [
    (Give::Inside, Kind::Lookup, None, None),
    (Give::Blocks, Kind::Fetch, None, None),
    (GONE, Kind::Lookup, None, None),
    (Give::Blocks, Kind::Fetch, None, None),
    (OLD, Kind::Lookup, None, None),
    (Give::Blocks, Kind::Fetch, None, None),
    (DOWN, Kind::Fetch, None, None),
    (DOWN, Kind::Lookup, None, None),
];

/// A read fails where two servers don't answer, and none serves.
const UNREACHABLE: [Row; 4] = [
    (Give::Inside, Kind::Lookup, None, None),
    (Give::Blocks, Kind::Fetch, None, None),
    (DOWN, Kind::Fetch, None, None),
    (
        DOWN,
        Kind::Idle,
        Some((1, What::Failed(Why::Unreachable(1, 2)))),
        None,
    ),
];

/// A call of names is answered at its lookup; a read fails where the file manager is down.
const NAMES_READ: [Row; 4] = [
    (Give::Inside, Kind::Lookup, None, None),
    (Give::Named, Kind::Call, Some((1, What::Dir)), None),
    (Give::Inside, Kind::Lookup, None, None),
    (
        Give::ManagerDown,
        Kind::Idle,
        Some((2, What::Failed(Why::Down))),
        None,
    ),
];

/// A read commits first what is kept.
const KEPT_FIRST: [Row; 7] = [
    (Give::Inside, Kind::Call, Some((1, What::Buffered)), None),
    (Give::Inside, Kind::Lookup, None, None),
    (Give::Found, Kind::Store, None, None),
    (DONE, Kind::Store, None, None),
    (DONE, Kind::Commit, None, None),
    (Give::Committed, Kind::Lookup, Some((1, What::Done)), None),
    (Give::Found, Kind::Idle, Some((2, What::Bytes(0))), None),
];

/// Kept calls that a finish can't commit end as unfinished.
const UNFINISHED: [Row; 4] = [
    (Give::Inside, Kind::Call, Some((1, What::Buffered)), None),
    (Give::Inside, Kind::Idle, Some((2, What::Buffered)), None),
    (Give::Flush, Kind::Lookup, None, None),
    (
        Give::ManagerDown,
        Kind::Idle,
        Some((1, What::Unfinished(Why::Down))),
        Some((2, What::Unfinished(Why::Down))),
    ),
];

/// A batch is in doubt after a doubt for its commit alone, until it is settled.
const DOUBT: [Row; 8] = [
    (Give::Inside, Kind::Lookup, None, None),
    (Give::Found, Kind::Store, None, None),
    (DONE, Kind::Store, None, None),
    (DONE, Kind::Commit, None, None),
    (
        Give::Doubt,
        Kind::Call,
        Some((1, What::Kept(Why::Down))),
        None,
    ),
    (Give::Inside, Kind::Lookup, None, None),
    (
        Give::Doubt,
        Kind::Idle,
        Some((2, What::Kept(Why::Down))),
        None,
    ),
    (Give::Settle, Kind::Idle, None, None),
];

/// A batch that was stale three times is looked up once more, and again where members changed.
const STALE: [Row; 17] = [
    (Give::Inside, Kind::Lookup, None, None),
    (Give::Found, Kind::Store, None, None),
    (DONE, Kind::Store, None, None),
    (DONE, Kind::Commit, None, None),
    (Give::Stale, Kind::Lookup, None, None),
    (Give::Found, Kind::Store, None, None),
    (DONE, Kind::Store, None, None),
    (DONE, Kind::Commit, None, None),
    (Give::Stale, Kind::Lookup, None, None),
    (Give::Found, Kind::Store, None, None),
    (DONE, Kind::Store, None, None),
    (DONE, Kind::Commit, None, None),
    (Give::Regen, Kind::Lookup, None, None),
    (Give::Found, Kind::Store, None, None),
    (DONE, Kind::Store, None, None),
    (DONE, Kind::Commit, None, None),
    (Give::Stale, Kind::Lookup, None, None),
];

/// The calls of a client, numbered from 1, whether its servers serve, and its steps.
type Course = (&'static [Do], u32, &'static [Row]);

const COURSES: [Course; 16] = [
    (&[Do::Write(0), Do::Sync], 7, &BUFFERED),
    (&[Do::Write(0); 8], 7, &EIGHTH),
    (&[Do::Write(0), Do::Create], 7, &NAMES_ALONE),
    (&[Do::Write(2), Do::Truncate(3), Do::Sync], 7, &IN_PART),
    (&[Do::Sync], 7, &STORES),
    (&[Do::Sync], 7, &NOT_MARKED),
    (&[Do::Sync], 7, &MARK_DOWN),
    (
        &[Do::Read(0, 6), Do::Read(0, 6), Do::Read(67_108_863, 1)],
        7,
        &READS,
    ),
    (&[Do::Read(0, 6)], 7, &PARITY),
    (&[Do::Read(0, 6)], 7, &READ_ANEW),
    (&[Do::Read(0, 6)], 0, &UNREACHABLE),
    (&[Do::Stat, Do::Read(0, 6)], 7, &NAMES_READ),
    (&[Do::Write(0), Do::Read(0, 1)], 7, &KEPT_FIRST),
    (&[Do::Write(0), Do::Write(6)], 7, &UNFINISHED),
    (&[Do::Sync, Do::Sync], 7, &DOUBT),
    (&[Do::Sync], 7, &STALE),
];

fn cause_of(cause: Cause) -> Why {
    match cause {
        Cause::Down => Why::Down,
        Cause::Unreachable { a, b } => Why::Unreachable(a.0, b.0),
        Cause::NoSpace { server } => Why::Space(server.0),
    }
}

fn replied(reply: &Reply) -> What {
    match reply {
        Reply::Done => What::Done,
        Reply::Bytes(bytes) => What::Bytes(bytes.len()),
        Reply::Dir => What::Dir,
        _ => What::Other,
    }
}

fn meaning(said: &Said) -> What {
    match said {
        Said::Reply(reply) => replied(reply),
        Said::Buffered => What::Buffered,
        Said::Kept(cause) => What::Kept(cause_of(*cause)),
        Said::Failed(cause) => What::Failed(cause_of(*cause)),
        Said::Unfinished(cause) => What::Unfinished(cause_of(*cause)),
        Said::Dropped => What::Other,
    }
}

/// The i-th line that was told.
fn line(told: &Told, i: usize) -> Option<(u64, What)> {
    let Told::Lines(lines) = told else {
        return None;
    };
    match lines.get(i) {
        Some(Outcome::Call { number, said, .. }) => Some((*number, meaning(said))),
        _ => None,
    }
}

/// Whether these lines were told, and no others.
fn is_told(told: Option<Told>, first: Option<(u64, What)>, second: Option<(u64, What)>) -> bool {
    let Some(told) = told else {
        return false;
    };
    line(&told, 0) == first && line(&told, 1) == second && line(&told, 2).is_none()
}

/// What a client tells of one step. None where the answer doesn't fit.
fn told_of(client: &mut Client, alloc: Global, give: Give, serving: u32) -> Mem<Option<Told>> {
    match give {
        Give::Flush => {
            flush(client);
            Ok(Some(Told::Nothing))
        }
        Give::Settle => {
            settle(client, true);
            Ok(Some(Told::Nothing))
        }
        _ => step(client, alloc, give, serving),
    }
}

/// Whether a step comes out as it should.
fn comes_out(client: &mut Client, alloc: Global, serving: u32, row: Row) -> Mem<bool> {
    let (give, kind, first, second) = row;
    let told = told_of(client, alloc, give, serving)?;
    Ok(is_told(told, first, second) && client.kind() == kind)
}

/// The place of the first step that comes out otherwise, else how many there are.
fn run(client: &mut Client, alloc: Global, serving: u32, rows: &[Row]) -> Mem<usize> {
    for (i, row) in rows.iter().enumerate() {
        if !comes_out(client, alloc, serving, *row)? {
            return Ok(i);
        }
    }
    Ok(rows.len())
}

/// Queues these calls, numbered from 1.
fn push_all(client: &mut Client, alloc: Global, calls: &[Do]) -> Mem<()> {
    let mut number = 1u64;
    for call in calls {
        push(client, alloc, number, *call)?;
        number = number.wrapping_add(1);
    }
    Ok(())
}

/// How many of these steps come out as they should behind these calls.
fn go(client: &mut Client, alloc: Global, course: Course) -> Mem<usize> {
    let (calls, serving, rows) = course;
    push_all(client, alloc, calls)?;
    run(client, alloc, serving, rows)
}

/// How many steps of a course come out as they should.
fn follow(alloc: Global, course: Course) -> Mem<usize> {
    let mut client = made(alloc)?;
    go(&mut client, alloc, course)
}

#[test]
fn each_course_is_followed(rt: HostRuntime) -> Result<(), Fail> {
    for (i, course) in COURSES.iter().enumerate() {
        let (_, _, rows) = course;
        assert_eq!(rt; follow(rt.alloc(), *course)?, rows.len(), "course {i}");
    }
    Ok(())
}

/// Whether the lookup that stands holds the file manager.
fn holds(client: &mut Client, alloc: Global) -> Mem<bool> {
    Ok(matches!(
        wish(client, alloc)?,
        Wish::Turn(Turn::Lookup(Lookup::Files { hold: true, .. }))
    ))
}

/// Whether the lookup holds behind so many of the steps of a stale batch.
fn holds_after(client: &mut Client, alloc: Global, steps: usize) -> Mem<bool> {
    push(client, alloc, 1, Do::Sync)?;
    let (rows, _) = STALE.split_at(steps.min(STALE.len()));
    run(client, alloc, 7, rows)?;
    holds(client, alloc)
}

/// The same, of a new client.
fn holds_behind(alloc: Global, steps: usize) -> Mem<bool> {
    let mut client = made(alloc)?;
    holds_after(&mut client, alloc, steps)
}

#[test]
fn the_lookup_after_three_stale_batches_holds(rt: HostRuntime) -> Result<(), Fail> {
    for (steps, wanted) in [(5, false), (9, false), (13, false), (17, true)] {
        assert_eq!(rt;
            holds_behind(rt.alloc(), steps)?,
            wanted,
            "after {steps} steps"
        );
    }
    Ok(())
}
