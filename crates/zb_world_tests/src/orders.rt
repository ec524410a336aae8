use crate::bench::Bench;
use crate::calls::{Do, Who};
use crate::history::history;
use crate::rows::{Act, Row, follow};
use std::alloc::Global;
use std::test::Fail;
use zb_types::Kind;
use zb_world::Halt;

/// Both clients have one write of one file to commit, and are about to look it up.
const START: [Row; 10] = [
    (Who::One, Act::Give(Do::Create)),
    (Who::One, Act::Give(Do::Write(2, b'z'))),
    (Who::One, Act::Give(Do::Sync)),
    (Who::One, Act::To(Kind::Idle)),
    (Who::One, Act::Give(Do::Write(0, b'x'))),
    (Who::One, Act::Give(Do::Sync)),
    (Who::One, Act::To(Kind::Lookup)),
    (Who::Two, Act::Give(Do::Write(2, b'y'))),
    (Who::Two, Act::Give(Do::Sync)),
    (Who::Two, Act::To(Kind::Lookup)),
];

/// Both are answered, and the file is read.
const REST: [Row; 3] = [
    (Who::One, Act::Finish),
    (Who::One, Act::Give(Do::Read)),
    (Who::One, Act::To(Kind::Idle)),
];

/// A client's steps up to its commit: a lookup, a fetch, two stores and the commit.
const TO_COMMIT: u32 = 5;

/// How many steps are made in each order; just one client makes enough of them to commit.
const STEPS: u32 = 9;

/// How many orders there are. Where bit i of an order is 1, client 2 makes step i.
const ORDERS: u32 = 512;

/// Client 1 is the first to commit.
const ONE_FIRST: &[u8] =
    b"c1 1 fid 1\nc1 2 done\nc1 3 done\nc1 4 done\nc1 5 done\nc2 1 done\nc2 2 done\nc1 6 bytes \"xxyyyy\"\nfile /a 1 6\n";

/// Client 2 is the first to commit.
const TWO_FIRST: &[u8] =
    b"c1 1 fid 1\nc1 2 done\nc1 3 done\nc2 1 done\nc2 2 done\nc1 4 done\nc1 5 done\nc1 6 bytes \"xxxxyy\"\nfile /a 1 6\n";

fn one_or_two(number: u32) -> Who {
    if number % 2 == 0 { Who::One } else { Who::Two }
}

/// The first steps in this order.
fn steps(alloc: Global, start: Bench, order: u32) -> Result<Bench, Halt> {
    let mut bench = start;
    let mut left = order;
    for _ in 0..STEPS {
        bench = bench.step(alloc, one_or_two(left))?;
        left /= 2;
    }
    Ok(bench)
}

/// The history and the tree once the first steps had this order.
fn ordered(alloc: Global, order: u32) -> Result<Vec<u8>, Halt> {
    let (bench, _) = follow(alloc, Bench::new(alloc)?, &START)?;
    let (bench, _) = follow(alloc, steps(alloc, bench, order)?, &REST)?;
    Ok(history(alloc, &bench)?)
}

#[test]
fn whoever_makes_its_steps_first_commits_first(rt: HostRuntime) -> Result<(), Fail> {
    for order in 0..ORDERS {
        let end = ordered(rt.alloc(), order)?;
        let wanted = if order.count_ones() < TO_COMMIT {
            ONE_FIRST
        } else {
            TWO_FIRST
        };
        assert_eq!(rt; end.as_slice(), wanted, "order {order}");
    }
    Ok(())
}
