ghost use Rattle.std.specs.Prelude.{◌≡◌, ◌+◌, ◌<◌, ◌≤◌, true, IfOk, length};
ghost use Rattle.zb_servers.specs.Serving.{EndsInRange};

use std::alloc::Global;
use std::test::Fail;
use zb_servers::Servers;
use zb_stripe::{Fed, Fresh, FreshFlush, FreshList, Got, Part, ReadPlan, WritePlan};
use zb_types::{
    ByteList, Class, FragId, Geometry, LenList, LogId, Mem, Ptr, Request, Response, ServerId,
    StoreFault,
};

const SERVER: ServerId = ServerId(2);

const FIRST: FragId = FragId {
    log: LogId(1),
    stripe: 0,
    index: 0,
};

/// A request about fragment 0 of a stripe, or of stripe 0, with few bytes.
#[derive(Clone, Copy)]
enum Step {
    Store(u64),
    Append(u8, [u8; 2]),
    Parity,
    Retrieve(u32, u32),
    Delete,
    Identify,
    Fence(u64),
}

/// What is answered, without its lists.
#[derive(Clone, Copy, Debug, PartialEq, Eq)]
enum Told {
    Done,
    Bytes(usize, Option<u8>),
    Parity(usize, usize, Option<u8>),
    Names(usize, Option<FragId>),
    Refused(StoreFault),
    Gone,
}

/// Requests of a generation, each with its answer and the slots that are free then, of 8.
const ROWS: [(u64, Step, Told, u32); 23] = [
    (1, Step::Store(0), Told::Done, 7),
    (1, Step::Store(0), Told::Refused(StoreFault::Exists), 7),
    (1, Step::Append(3, *b"de"), Told::Done, 7),
    (1, Step::Append(3, *b"de"), Told::Done, 7),
    (
        1,
        Step::Append(4, *b"ex"),
        Told::Refused(StoreFault::Offset { len: 5 }),
        7,
    ),
    (
        1,
        Step::Retrieve(3, 3),
        Told::Refused(StoreFault::Short { len: 5 }),
        7,
    ),
    (1, Step::Retrieve(3, 2), Told::Bytes(2, Some(b'd')), 7),
    (1, Step::Identify, Told::Names(1, Some(FIRST)), 7),
    (1, Step::Fence(2), Told::Done, 7),
    (
        1,
        Step::Fence(1),
        Told::Refused(StoreFault::OldGeneration { now: 2 }),
        7,
    ),
    (
        1,
        Step::Append(5, *b"ex"),
        Told::Refused(StoreFault::OldGeneration { now: 2 }),
        7,
    ),
    (2, Step::Store(1), Told::Done, 6),
    (2, Step::Store(2), Told::Done, 5),
    (2, Step::Store(3), Told::Done, 4),
    (
        2,
        Step::Store(4),
        Told::Refused(StoreFault::NoSlot { free: 4 }),
        4,
    ),
    (1, Step::Delete, Told::Done, 5),
    (
        2,
        Step::Retrieve(0, 1),
        Told::Refused(StoreFault::NoFragment),
        5,
    ),
    (
        2,
        Step::Append(0, *b"de"),
        Told::Refused(StoreFault::NoFragment),
        5,
    ),
    (2, Step::Delete, Told::Refused(StoreFault::NoFragment), 5),
    (2, Step::Parity, Told::Done, 4),
    (2, Step::Parity, Told::Done, 4),
    (
        2,
        Step::Store(4),
        Told::Refused(StoreFault::NoSlot { free: 4 }),
        4,
    ),
    (2, Step::Retrieve(2, 4), Told::Parity(2, 4, Some(9)), 4),
];

fn request(alloc: Global, step: Step) -> Mem<Request>
    ensures { IfOk result EndsInRange }
{
    let id = FIRST;
    let class = Class::Client;
    Ok(match step {
        Step::Store(stripe) => Request::Store {
            id: FragId { stripe, ..FIRST },
            bytes: ByteList::from_slice(alloc, b"abc")?,
            class,
        },
        Step::Append(place, bytes) => Request::Append {
            id,
            place: u32::from(place),
            bytes: ByteList::from_slice(alloc, &bytes)?,
        },
        Step::Parity => Request::Parity {
            id,
            lengths: LenList::from_slice(alloc, &[3, 2])?,
            bytes: ByteList::from_slice(alloc, &[6, 7, 9])?,
            class,
        },
        Step::Retrieve(place, len) => Request::Retrieve { id, place, len },
        Step::Delete => Request::Delete { id },
        Step::Identify => Request::Identify { after: None },
        Step::Fence(generation) => Request::Fence { generation },
    })
}

fn summary(answer: &Response) -> Told {
    match answer {
        Response::Done => Told::Done,
        Response::Bytes(bytes) => Told::Bytes(bytes.len(), bytes.get(0).copied()),
        Response::Parity { lengths, bytes } => {
            Told::Parity(lengths.len(), bytes.len(), bytes.get(0).copied())
        }
        Response::Ids(names) => Told::Names(names.len(), names.get(0).copied()),
        Response::Refused(why) => Told::Refused(*why),
        Response::Down | Response::Blank => Told::Gone,
    }
}

fn three_servers(alloc: Global) -> Result<Servers, Fail>
    ensures { IfOk result (λ servers. length servers.servers ≡ 3) }
{
    let geo = Geometry::new(3, 1, 256, 64, 8)?;
    Ok(Servers::new(alloc, &geo)?)
}

fn answer(servers: &mut Servers, alloc: Global, generation: u64, step: Step) -> Mem<Told>
    requires { length servers.old.servers ≡ 3 }
    ensures { length servers.new.servers ≡ 3 }
{
    let request = request(alloc, step)?;
    let answer = servers.serve(alloc, SERVER, generation, &request)?;
    Ok(summary(&answer))
}

#[test]
fn requests_are_answered_by_the_rules(rt: HostRuntime) -> Result<(), Fail> {
    let mut servers = three_servers(rt.alloc())?;
    for (generation, step, told, free) in ROWS {
        assert_eq!(rt; answer(&mut servers, rt.alloc(), generation, step)?, told);
        assert_eq!(rt; servers.free(SERVER), free);
    }
    assert_eq!(rt; servers.serving(), 7);
    Ok(())
}

/// Whether the bytes of a request are few.
fn is_small(request: &Request) -> bool
    ensures { result ≡ true → EndsInRange request.now }
{
    match request {
        Request::Store { bytes, .. } | Request::Parity { bytes, .. } => bytes.len() < 1000,
        Request::Append { place, bytes, .. } => *place < 1000 && bytes.len() < 1000,
        _ => true,
    }
}

/// What a server answers in generation 1, Down where there is no such server.
fn ask(servers: &mut Servers, alloc: Global, server: ServerId, request: &Request) -> Mem<Response>
    requires { length servers.old.servers ≡ 3 }
    ensures { length servers.new.servers ≡ 3 }
{
    if server.0 < 1 || server.0 > 3 || !is_small(request) {
        return Ok(Response::Down);
    }
    servers.serve(alloc, server, 1, request)
}

/// Has the request that stands carried out.
fn deliver(servers: &mut Servers, alloc: Global, plan: &mut WritePlan) -> Mem<Fed>
    requires { length servers.old.servers ≡ 3 }
    ensures { length servers.new.servers ≡ 3 }
{
    let Some((server, request)) = plan.next() else {
        return Ok(Fed::Done);
    };
    let answer = ask(servers, alloc, server, request)?;
    Ok(plan.feed(&answer))
}

/// Writes the first bytes of a stripe.
fn write(servers: &mut Servers, alloc: Global, geo: &Geometry, bytes: &[u8]) -> Mem<Fed>
    requires count { length servers.old.servers ≡ 3 }
    requires servers { geo.now.servers ≡ 3 }
    requires fragment { geo.now.fragment ≡ 256 }
    requires some { 0 < length bytes.now }
    requires room { length bytes.now ≤ 512 }
    ensures { length servers.new.servers ≡ 3 }
{
    let part = Part {
        stripe: 4,
        begin: 0,
        bytes: ByteList::from_slice(alloc, bytes)?,
    };
    let mut parts = FreshList::new(alloc)?;
    parts.push(Fresh::of(alloc, geo, &part)?)?;
    let fresh = FreshFlush {
        log: LogId(1),
        parts,
    };
    let mut plan = WritePlan::new(alloc, geo, &fresh, None, Class::Client)?;
    for _ in 0..8 {
        match deliver(servers, alloc, &mut plan)? {
            Fed::More => {}
            fed => return Ok(fed),
        }
    }
    Ok(Fed::More)
}

/// Has the request that stands answered: Gone where nothing is asked, or the answer doesn't fit.
fn fetch(servers: &mut Servers, alloc: Global, plan: &mut ReadPlan) -> Mem<Got>
    requires { length servers.old.servers ≡ 3 }
    ensures { length servers.new.servers ≡ 3 }
{
    let Some((server, request)) = plan.next() else {
        return Ok(Got::Gone);
    };
    let answer = ask(servers, alloc, server, request)?;
    if !plan.fits(&answer) {
        return Ok(Got::Gone);
    }
    plan.feed(alloc, &answer)
}

/// What reading a pointer comes to.
fn read(servers: &mut Servers, alloc: Global, geo: &Geometry, ptr: &Ptr) -> Mem<Got>
    requires count { length servers.old.servers ≡ 3 }
    requires servers { geo.now.servers ≡ 3 }
    requires fragment { geo.now.fragment ≡ 256 }
    requires room { ptr.now.offset + ptr.now.len ≤ 512 }
    ensures { length servers.new.servers ≡ 3 }
{
    let mut plan = ReadPlan::new(alloc, geo, ptr, None)?;
    for _ in 0..8 {
        match fetch(servers, alloc, &mut plan)? {
            Got::More => {}
            got => return Ok(got),
        }
    }
    Ok(Got::More)
}

#[test]
fn a_flush_is_read_back(rt: HostRuntime) -> Result<(), Fail> {
    let geo = Geometry::new(3, 1, 256, 64, 8)?;
    let mut servers = three_servers(rt.alloc())?;
    let mut bytes = Vec::from_slice(rt.alloc(), &[7; 250])?;
    bytes.extend_from_slice(b"two shares")?;
    assert_eq!(rt; write(&mut servers, rt.alloc(), &geo, &bytes)?, Fed::Done);
    let ptr = Ptr {
        log: LogId(1),
        stripe: 4,
        offset: 249,
        len: 11,
    };
    match read(&mut servers, rt.alloc(), &geo, &ptr)? {
        Got::Bytes(read) => assert_eq!(rt; read.slice(), b"\x07two shares".as_slice()),
        _ => assert!(rt; false, "the bytes are written"),
    }
    Ok(())
}
