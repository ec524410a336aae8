use crate::bench::Bench;
use crate::calls::{Do, Who};
use crate::history::history;
use crate::rows::{Act, Row, follow};
use std::test::Fail;
use zb_types::Kind;
use zb_world::Step;

/// Two clients are answered, each in its turn.
const IN_TURN: [Row; 12] = [
    (Who::One, Act::Give(Do::Create)),
    (Who::One, Act::To(Kind::Idle)),
    (Who::Two, Act::Give(Do::Write(0, b'y'))),
    (Who::Two, Act::Give(Do::Sync)),
    (Who::Two, Act::To(Kind::Idle)),
    (Who::One, Act::Give(Do::Write(2, b'x'))),
    (Who::One, Act::Give(Do::Read)),
    (Who::One, Act::To(Kind::Idle)),
    (Who::Two, Act::Give(Do::Read)),
    (Who::Two, Act::Give(Do::List)),
    (Who::Two, Act::To(Kind::Idle)),
    (Who::One, Act::Finish),
];

/// Only the client with work has a step.
const ALONE: [Row; 6] = [
    (Who::One, Act::Step(Step::Idle, Kind::Idle)),
    (Who::Two, Act::Give(Do::Create)),
    (Who::One, Act::Step(Step::Idle, Kind::Idle)),
    (Who::Two, Act::Step(Step::Moved, Kind::Lookup)),
    (Who::One, Act::Step(Step::Idle, Kind::Idle)),
    (Who::Two, Act::To(Kind::Idle)),
];

/// Client 2 is overtaken three times, and then holds the file manager until it has committed.
const OVERTAKEN: [Row; 30] = [
    (Who::One, Act::Give(Do::Create)),
    (Who::One, Act::To(Kind::Idle)),
    (Who::Two, Act::Give(Do::Write(2, b'y'))),
    (Who::Two, Act::Give(Do::Sync)),
    (Who::Two, Act::To(Kind::Commit)),
    (Who::One, Act::Give(Do::Write(0, b'a'))),
    (Who::One, Act::Give(Do::Sync)),
    (Who::One, Act::To(Kind::Idle)),
    (Who::Two, Act::Step(Step::Moved, Kind::Lookup)),
    (Who::Two, Act::To(Kind::Commit)),
    (Who::One, Act::Give(Do::Write(0, b'b'))),
    (Who::One, Act::Give(Do::Sync)),
    (Who::One, Act::To(Kind::Idle)),
    (Who::Two, Act::Step(Step::Moved, Kind::Lookup)),
    (Who::Two, Act::To(Kind::Commit)),
    (Who::One, Act::Give(Do::Write(0, b'c'))),
    (Who::One, Act::Give(Do::Sync)),
    (Who::One, Act::To(Kind::Idle)),
    (Who::Two, Act::Step(Step::Moved, Kind::Lookup)),
    (Who::Two, Act::Step(Step::Moved, Kind::Fetch)),
    (Who::One, Act::Give(Do::Write(0, b'd'))),
    (Who::One, Act::Give(Do::Sync)),
    (Who::One, Act::To(Kind::Commit)),
    (
        Who::One,
        Act::Step(Step::Blocked { holder: 2 }, Kind::Commit),
    ),
    (Who::Two, Act::To(Kind::Commit)),
    (Who::Two, Act::Step(Step::Answered, Kind::Idle)),
    (Who::One, Act::Step(Step::Moved, Kind::Lookup)),
    (Who::One, Act::To(Kind::Idle)),
    (Who::One, Act::Give(Do::Read)),
    (Who::One, Act::To(Kind::Idle)),
];

/// What is done, what is printed, and the history with the tree at the end.
type Course = (&'static [Row], &'static [u8], &'static [u8]);

const COURSES: [Course; 3] = [
    (
        &IN_TURN,
        b"c1 1 fid 1\nc2 1 kept buffered\nc2 1 done\nc2 2 done\nc1 2 kept buffered\nc1 2 done\nc1 3 bytes \"yyxxxx\"\nc2 3 bytes \"yyxxxx\"\nc2 4 names a\n",
        b"c1 1 fid 1\nc2 1 done\nc2 2 done\nc1 2 done\nc1 3 bytes \"yyxxxx\"\nc2 3 bytes \"yyxxxx\"\nc2 4 names a\nfile /a 1 6\n",
    ),
    (&ALONE, b"c2 1 fid 1\n", b"c2 1 fid 1\nfile /a 1 0\n"),
    (
        &OVERTAKEN,
        b"c1 1 fid 1\nc2 1 kept buffered\nc1 2 kept buffered\nc1 2 done\nc1 3 done\nc1 4 kept buffered\nc1 4 done\nc1 5 done\nc1 6 kept buffered\nc1 6 done\nc1 7 done\nc1 8 kept buffered\nc2 1 done\nc2 2 done\nc1 8 done\nc1 9 done\nc1 10 bytes \"ddddyy\"\n",
        b"c1 1 fid 1\nc1 2 done\nc1 3 done\nc1 4 done\nc1 5 done\nc1 6 done\nc1 7 done\nc2 1 done\nc2 2 done\nc1 8 done\nc1 9 done\nc1 10 bytes \"ddddyy\"\nfile /a 1 6\n",
    ),
];

#[test]
fn each_course_is_followed(rt: HostRuntime) -> Result<(), Fail> {
    for (rows, report, ends) in COURSES {
        let (bench, met) = follow(rt.alloc(), Bench::new(rt.alloc())?, rows)?;
        assert_eq!(rt; met, rows.len());
        assert_eq!(rt; history(rt.alloc(), &bench)?.as_slice(), ends);
        assert_eq!(rt; bench.print().printed(), report);
    }
    Ok(())
}
