ghost use Rattle.std.specs.Prelude.{◌≡◌, IfOk};
ghost use Rattle.zb_types.specs.declared.geometry.Geometry.{Geometry as SeenGeometry};
ghost use Rattle.zb_server.specs.Asking.{FitsSystem};

use std::alloc::Global;
use std::marker::Model;
use std::test::Fail;
use zb_devices::MemOutside;
use zb_fragstore::{FragStore, OpenFault};
use zb_outside::{Bay, Fused};
use zb_server::Server;
use zb_types::{
    ByteList, Class, FragId, Geometry, LenList, LogId, Mem, Request, Response, ServerId, StoreFault,
};

// The first share of a stripe, and its parity.
const SHARE: FragId = FragId {
    log: LogId(1),
    stripe: 0,
    index: 0,
};

const PARITY: FragId = FragId {
    log: LogId(1),
    stripe: 0,
    index: 2,
};

// A node of that system, with its platter in memory behind a fuse.
#[derive(Drop)]
struct Bench {
    geo: Geometry,
    server: ServerId,
    bay: Fused<MemOutside>,
    node: Server,
}

impl Model for Bench {
    ghost use Rattle.std.specs.Prelude.{◌≡◌};
    ghost use Rattle.zb_types.specs.declared.geometry.Geometry.{Geometry};
    ghost use Rattle.zb_server.specs.Serving.{IsNodeOf};

    ghost Value = { Geometry };

    ghost view = { λ a. a.geo };

    ghost invariant = { λ a. (a.geo.servers ≡ 3) × ((a.geo.fragment ≡ 256) × IsNodeOf a.geo a.server a.node) };
}

/// A request about the first stripe of log 1, by a client.
#[derive(Clone, Copy)]
enum Step {
    Store([u8; 3]),
    Append(u8, [u8; 2]),
    Parity([u8; 3]),
    Retrieve(FragId, u8),
    Delete,
    Identify(Option<FragId>),
    Fence(u64),
}

/// What is answered, without its lists.
#[derive(Clone, Copy, PartialEq, Eq)]
enum Told {
    Done,
    Bytes(usize, Option<u8>),
    Parity(usize, usize, Option<u8>),
    Names([Option<FragId>; 3]),
    Refused(StoreFault),
    Down,
    Blank,
}

/// What happens to a node before it is asked: its platter is formatted or stops at its n-th write, it comes up, or it
/// crashes.
#[derive(Clone, Copy)]
enum Event {
    Nothing,
    Format,
    Stop(u64),
    Up(Result<(), OpenFault>),
    Crash,
}

/// What happens, and then a request of a generation, and what is answered.
type Row = (Event, u64, Step, Told);

fn request(alloc: Global, step: Step) -> Mem<Request>
    ensures { IfOk result (λ request. (geo : SeenGeometry) → geo.servers ≡ 3 → geo.fragment ≡ 256 → FitsSystem geo request) }
{
    let class = Class::Client;
    Ok(match step {
        Step::Store(bytes) => Request::Store {
            id: SHARE,
            bytes: ByteList::from_slice(alloc, &bytes)?,
            class,
        },
        Step::Append(place, bytes) => Request::Append {
            id: SHARE,
            place: u32::from(place.min(254)),
            bytes: ByteList::from_slice(alloc, &bytes)?,
        },
        Step::Parity(bytes) => Request::Parity {
            id: PARITY,
            lengths: LenList::from_slice(alloc, &[3, 2])?,
            bytes: ByteList::from_slice(alloc, &bytes)?,
            class,
        },
        Step::Retrieve(id, len) => Request::Retrieve {
            id,
            place: 0,
            len: u32::from(len),
        },
        Step::Delete => Request::Delete { id: SHARE },
        Step::Identify(after) => Request::Identify { after },
        Step::Fence(generation) => Request::Fence { generation },
    })
}

fn summary(response: &Response) -> Told {
    match response {
        Response::Done => Told::Done,
        Response::Bytes(bytes) => Told::Bytes(bytes.len(), bytes.get(0).copied()),
        Response::Parity { lengths, bytes } => {
            Told::Parity(lengths.len(), bytes.len(), bytes.get(0).copied())
        }
        Response::Ids(names) => Told::Names([0, 1, 2].map(|i| names.get(i).copied())),
        Response::Refused(why) => Told::Refused(*why),
        Response::Down => Told::Down,
        Response::Blank => Told::Blank,
    }
}

impl Bench {
    // A node that is down, on a platter that leaves these images at its restarts.
    fn new(alloc: Global, choices: &[u8]) -> Result<Bench, Fail> {
        Ok(Bench {
            geo: Geometry::new(3, 1, 256, 64, 8)?,
            server: ServerId(1),
            bay: Fused::new(MemOutside::new(alloc, b"", choices, &[])?),
            node: Server::Down,
        })
    }

    fn up(&mut self, alloc: Global) -> Result<(), OpenFault> {
        self.bay.disarm(1);
        self.node.up(alloc, &mut self.bay, &self.geo, self.server)
    }

    fn serve(&mut self, alloc: Global, generation: u64, step: Step) -> Mem<Told> {
        let request = request(alloc, step)?;
        let response = self.node.serve(alloc, &mut self.bay, generation, &request);
        Ok(summary(&response))
    }

    fn meet(&mut self, alloc: Global, event: Event) -> Result<(), Fail> {
        match event {
            Event::Nothing => {}
            Event::Format => {
                FragStore::format(alloc, &mut self.bay, &self.geo, self.server, 1)?;
            }
            Event::Stop(n) => self.bay.arm(1, n.max(1)),
            Event::Up(wanted) => {
                if self.up(alloc) != wanted {
                    return Err(Fail::new("it comes up otherwise"));
                }
            }
            Event::Crash => self.node.crash(),
        }
        Ok(())
    }
}

// Whether a row is answered as it says, by a node that serves exactly where its store answers.
fn is_answered(bench: &mut Bench, alloc: Global, row: &Row) -> Result<bool, Fail> {
    let (event, generation, step, wanted) = *row;
    bench.meet(alloc, event)?;
    let told = bench.serve(alloc, generation, step)?;
    let answers = told != Told::Down && told != Told::Blank;
    Ok(told == wanted && bench.node.serving() == answers)
}

/// The first row that is answered otherwise by a node, down at first and on a platter that leaves these images at its
/// restarts.
fn first_other(alloc: Global, choices: &[u8], rows: &[Row]) -> Result<Option<usize>, Fail> {
    let mut bench = Bench::new(alloc, choices)?;
    for (i, row) in rows.iter().enumerate() {
        if !is_answered(&mut bench, alloc, row)? {
            return Ok(Some(i));
        }
    }
    Ok(None)
}

const NOTHING: Event = Event::Nothing;

const UP: Event = Event::Up(Ok(()));

const BLANK: Event = Event::Up(Err(OpenFault::Blank));

const ABC: Step = Step::Store(*b"abc");

const SHORT: Told = Told::Refused(StoreFault::Short { len: 5 });

const OLD: Told = Told::Refused(StoreFault::OldGeneration { now: 2 });

const NONE: Told = Told::Refused(StoreFault::NoFragment);

const EXISTS: Told = Told::Refused(StoreFault::Exists);

const ALL: Told = Told::Names([Some(SHARE), Some(PARITY), None]);

const BEHIND: Told = Told::Names([Some(PARITY), None, None]);

fn answered() -> [Row; 13] {
    [
        (Event::Format, 1, Step::Delete, Told::Down),
        (UP, 1, ABC, Told::Done),
        (NOTHING, 1, Step::Append(3, *b"de"), Told::Done),
        (NOTHING, 1, Step::Parity(*b"xyz"), Told::Done),
        (
            NOTHING,
            1,
            Step::Retrieve(SHARE, 5),
            Told::Bytes(5, Some(b'a')),
        ),
        (NOTHING, 1, Step::Retrieve(SHARE, 6), SHORT),
        (
            NOTHING,
            1,
            Step::Retrieve(PARITY, 4),
            Told::Parity(2, 4, Some(b'x')),
        ),
        (NOTHING, 1, Step::Identify(None), ALL),
        (NOTHING, 1, Step::Identify(Some(SHARE)), BEHIND),
        (NOTHING, 1, Step::Fence(2), Told::Done),
        (NOTHING, 1, Step::Retrieve(SHARE, 1), OLD),
        (NOTHING, 1, Step::Delete, Told::Done),
        (NOTHING, 2, Step::Delete, NONE),
    ]
}

fn down_and_up() -> [Row; 7] {
    [
        (Event::Format, 1, Step::Delete, Told::Down),
        (UP, 1, Step::Delete, NONE),
        (Event::Stop(1), 1, ABC, Told::Down),
        (NOTHING, 1, Step::Delete, Told::Down),
        (UP, 1, ABC, Told::Done),
        (Event::Crash, 1, Step::Delete, Told::Down),
        (UP, 1, Step::Delete, Told::Done),
    ]
}

fn never_formatted() -> [Row; 1] {
    [(BLANK, 1, Step::Delete, Told::Blank)]
}

// A store that is stopped at its last write, and what is answered to it again after the restart that brings its node up.
fn stopped(again: Told) -> [Row; 4] {
    [
        (Event::Format, 1, Step::Delete, Told::Down),
        (UP, 1, Step::Delete, NONE),
        (Event::Stop(3), 1, ABC, Told::Down),
        (UP, 1, ABC, again),
    ]
}

// The first rows that are answered otherwise. The stopped store was lost, and not synced, by the restart: once for a restart
// that leaves no unsynced write, and once for one that leaves them all.
fn others(alloc: Global) -> Result<[Option<usize>; 5], Fail> {
    Ok([
        first_other(alloc, &[], &answered())?,
        first_other(alloc, &[], &down_and_up())?,
        first_other(alloc, &[], &never_formatted())?,
        first_other(alloc, &[0, 0], &stopped(Told::Done))?,
        first_other(alloc, &[0, 1], &stopped(EXISTS))?,
    ])
}

#[test]
fn a_node_answers_by_its_store_and_comes_back(rt: HostRuntime) -> Result<(), Fail> {
    assert_eq!(rt; others(rt.alloc())?, [None; 5]);
    Ok(())
}
