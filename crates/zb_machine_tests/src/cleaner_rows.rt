use crate::cleaner_bench::{First, Give, made, step};
use crate::servers::Says;
use std::alloc::Global;
use std::test::Fail;
use zb_cleaner::{Cleaner, Told};
use zb_types::{Cause, Ended, Kind, LogId, Mem, Outcome, Pass};

/// One step: what it is answered, the kind of the step behind it, and the line of a pass that ends with it.
type Row = (Give, Kind, Option<End>);

/// The line of a pass that ends.
#[derive(Clone, Copy, PartialEq, Eq)]
enum End {
    Nothing,
    /// Stripe 1 of log 1, with so many blocks moved, and none in vain.
    Done(u64, Ended),
    Down,
    Unreachable(u8, u8),
    Space(u8),
    Other,
}

const DONE: Give = Give::Server(Says::Done);

const BYTES: Give = Give::Server(Says::Bytes);

const NAMES: Give = Give::Server(Says::Names);

const NO_NAMES: Give = Give::Server(Says::NoNames);

const DOWN: Give = Give::Server(Says::Down);

const OLD: Give = Give::Server(Says::Old);

const NO_SLOT: Give = Give::Server(Says::NoSlot);

/// No stripe may be cleaned: strays are swept at each server, and the pass ends behind them.
const NOTHING: [Row; 6] = [
    (Give::Nothing, Kind::Sweep, None),
    (NAMES, Kind::Delete, None),
    (DONE, Kind::Sweep, None),
    (NO_NAMES, Kind::Sweep, None),
    (NAMES, Kind::Delete, None),
    (DONE, Kind::Idle, Some(End::Nothing)),
];

/// A server that is down at a delete, or at a sweep, is passed over.
const PASSED_OVER: [Row; 5] = [
    (Give::Nothing, Kind::Sweep, None),
    (NAMES, Kind::Delete, None),
    (DOWN, Kind::Sweep, None),
    (DOWN, Kind::Sweep, None),
    (DONE, Kind::Idle, Some(End::Nothing)),
];

/// A stripe that no pointer names is retired at once.
const EMPTY: [Row; 5] = [
    (Give::Picked(0), Kind::Retire, None),
    (Give::Retired, Kind::Sweep, None),
    (NO_NAMES, Kind::Sweep, None),
    (NO_NAMES, Kind::Sweep, None),
    (NO_NAMES, Kind::Idle, Some(End::Done(0, Ended::Retired))),
];

/// Two blocks are copied, stored as a share and a parity, and committed.
const COPIES: [Row; 10] = [
    (Give::Picked(2), Kind::Fetch, None),
    (BYTES, Kind::Fetch, None),
    (BYTES, Kind::Store, None),
    (DONE, Kind::Store, None),
    (DONE, Kind::Commit, None),
    (Give::Committed, Kind::Retire, None),
    (Give::Needed, Kind::Sweep, None),
    (NO_NAMES, Kind::Sweep, None),
    (NO_NAMES, Kind::Sweep, None),
    (NO_NAMES, Kind::Idle, Some(End::Done(1, Ended::Needed))),
];

/// A fetch that meets a fence looks the members up, and goes on with the same block; one through the parity goes on.
const FETCHES: [Row; 5] = [
    (Give::Picked(1), Kind::Fetch, None),
    (OLD, Kind::Lookup, None),
    (Give::Seen, Kind::Fetch, None),
    (DOWN, Kind::Fetch, None),
    (BYTES, Kind::Fetch, None),
];

/// A store ends as its server says, and a commit behind the members is placed anew.
const STORES: [Row; 13] = [
    (Give::Picked(1), Kind::Fetch, None),
    (BYTES, Kind::Store, None),
    (DOWN, Kind::Mark, None),
    (Give::Marked, Kind::Lookup, None),
    (Give::Seen, Kind::Store, None),
    (OLD, Kind::Lookup, None),
    (Give::Seen, Kind::Store, None),
    (DONE, Kind::Store, None),
    (DONE, Kind::Commit, None),
    (Give::Regen, Kind::Lookup, None),
    (Give::Seen, Kind::Store, None),
    (DONE, Kind::Store, None),
    (NO_SLOT, Kind::Idle, Some(End::Space(1))),
];

/// Another server doesn't serve either.
const NOT_MARKED: [Row; 4] = [
    (Give::Picked(1), Kind::Fetch, None),
    (BYTES, Kind::Store, None),
    (DOWN, Kind::Mark, None),
    (Give::NotMarked, Kind::Idle, Some(End::Unreachable(1, 3))),
];

/// The file manager is down at a pick, and stops in a retire.
const MANAGER_DOWN: [Row; 3] = [
    (Give::ManagerDown, Kind::Pick, Some(End::Down)),
    (Give::Picked(0), Kind::Retire, None),
    (Give::Doubt, Kind::Idle, Some(End::Down)),
];

/// A stripe is kept while a server mends.
const MENDING: [Row; 5] = [
    (Give::Picked(0), Kind::Retire, None),
    (Give::Mending, Kind::Sweep, None),
    (NO_NAMES, Kind::Sweep, None),
    (NO_NAMES, Kind::Sweep, None),
    (NO_NAMES, Kind::Idle, Some(End::Done(0, Ended::Mending))),
];

/// How many jobs there are, which servers serve, and the steps.
type Course = (usize, u32, &'static [Row]);

const COURSES: [Course; 9] = [
    (1, 7, &NOTHING),
    (1, 7, &PASSED_OVER),
    (1, 7, &EMPTY),
    (1, 7, &COPIES),
    (1, 7, &FETCHES),
    (1, 7, &STORES),
    (1, 7, &NOT_MARKED),
    (2, 7, &MANAGER_DOWN),
    (1, 7, &MENDING),
];

fn cause_of(cause: Cause) -> End {
    match cause {
        Cause::Down => End::Down,
        Cause::Unreachable { a, b } => End::Unreachable(a.0, b.0),
        Cause::NoSpace { server } => End::Space(server.0),
    }
}

fn meaning(pass: Pass) -> End {
    match pass {
        Pass::Nothing => End::Nothing,
        Pass::Done {
            log: LogId(1),
            stripe: 1,
            copied,
            rejected: 0,
            end,
        } => End::Done(copied, end),
        Pass::Failed(cause) => cause_of(cause),
        _ => End::Other,
    }
}

/// The line of the pass that was told.
fn line(told: &Told) -> Option<End> {
    let Told::Lines(lines) = told else {
        return None;
    };
    match lines.get(0) {
        Some(Outcome::Clean(pass)) => Some(meaning(*pass)),
        _ => None,
    }
}

/// Whether this line was told, if any.
fn is_told(told: Option<Told>, wanted: Option<End>) -> bool {
    let Some(told) = told else {
        return false;
    };
    line(&told) == wanted
}

/// Whether a step comes out as it should.
fn comes_out(cleaner: &mut Cleaner<First>, alloc: Global, serving: u32, row: Row) -> Mem<bool> {
    let (give, kind, wanted) = row;
    let told = step(cleaner, alloc, give, serving)?;
    Ok(is_told(told, wanted) && cleaner.kind() == kind)
}

/// The place of the first step that comes out otherwise, else how many there are.
fn run(cleaner: &mut Cleaner<First>, alloc: Global, serving: u32, rows: &[Row]) -> Mem<usize> {
    for (i, row) in rows.iter().enumerate() {
        if !comes_out(cleaner, alloc, serving, *row)? {
            return Ok(i);
        }
    }
    Ok(rows.len())
}

/// How many of these steps come out as they should, with so many jobs.
fn go(cleaner: &mut Cleaner<First>, alloc: Global, course: Course) -> Mem<usize> {
    let (jobs, serving, rows) = course;
    for _ in 0..jobs {
        cleaner.push(alloc)?;
    }
    run(cleaner, alloc, serving, rows)
}

/// How many steps of a course come out as they should.
fn follow(alloc: Global, course: Course) -> Mem<usize> {
    let mut cleaner = made(alloc)?;
    go(&mut cleaner, alloc, course)
}

#[test]
fn each_course_is_followed(rt: HostRuntime) -> Result<(), Fail> {
    for (i, course) in COURSES.iter().enumerate() {
        let (_, _, rows) = course;
        assert_eq!(rt; follow(rt.alloc(), *course)?, rows.len(), "course {i}");
    }
    Ok(())
}
