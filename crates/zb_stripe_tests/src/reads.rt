ghost use Rattle.std.specs.Prelude.{◌≡◌, length};

use std::alloc::Global;
use std::test::Fail;
use zb_stripe::{Got, ReadPlan};
use zb_types::{ByteList, Geometry, LenList, LogId, Mem, Ptr, Request, Response, ServerId};

/// A byte of a share: it differs by share and by place.
fn byte_of(index: u8, place: u32) -> u8 {
    let turn = index.wrapping_mul(2).wrapping_add(3);
    ((place % 251) as u8).wrapping_mul(turn).wrapping_add(index)
}

/// The exclusive or of one byte of each share.
fn parity_byte(shares: u8, place: u32) -> u8 {
    let mut byte = 0;
    for index in 0..shares {
        byte ^= byte_of(index, place);
    }
    byte
}

/// The bytes of a share, or of the parity, from a place on.
fn fill(into: &mut [u8], shares: u8, index: u8, place: u32)
    ensures { length into.new ≡ length into.old }
{
    let mut at = 0;
    while at < into.len() {
        let here = place.wrapping_add((at % 1024) as u32);
        into[at] = if index == shares {
            parity_byte(shares, here)
        } else {
            byte_of(index, here)
        };
        at += 1;
    }
}

/// What is answered to a retrieve.
fn answer(alloc: Global, geo: &Geometry, index: u8, place: u32, len: u32) -> Mem<Response> {
    let shares = (geo.servers - 1) as u8;
    let mut bytes = vec![in alloc; 0u8; len as usize]?;
    fill(&mut bytes, shares, index, place);
    let bytes = ByteList::of(bytes);
    if index == shares {
        let lengths = vec![in alloc; 256u32; shares as usize]?;
        let lengths = LenList::of(lengths);
        return Ok(Response::Parity { lengths, bytes });
    }
    Ok(Response::Bytes(bytes))
}

/// Feeds one answer, which is Down from the servers `down`: Gone where nothing is asked, or the answer doesn't fit.
fn step(plan: &mut ReadPlan, alloc: Global, geo: &Geometry, down: [u8; 2]) -> Mem<Got> {
    let (server, index, place, len) = match plan.next() {
        Some((server, Request::Retrieve { id, place, len })) => (server.0, id.index, *place, *len),
        _ => return Ok(Got::Gone),
    };
    let response = if server == down[0] || server == down[1] {
        Response::Down
    } else {
        answer(alloc, geo, index, place, len)?
    };
    if !plan.fits(&response) {
        return Ok(Got::Gone);
    }
    plan.feed(alloc, &response)
}

/// Reads a whole stripe of log 1, by a copy of the plan for each answer.
fn read(alloc: Global, geo: &Geometry, out: Option<ServerId>, down: [u8; 2]) -> Mem<Got> {
    let ptr = Ptr {
        log: LogId(1),
        stripe: 0,
        offset: 0,
        len: (geo.servers - 1) * geo.fragment,
    };
    let mut plan = ReadPlan::new(alloc, geo, &ptr, out)?;
    for _ in 0..64 {
        let mut next = plan.copy(alloc)?;
        match step(&mut next, alloc, geo, down)? {
            Got::More => plan = next,
            got => return Ok(got),
        }
    }
    Ok(Got::More)
}

/// The bytes of a stripe with shares of 256 bytes.
fn stripe(alloc: Global, geo: &Geometry) -> Mem<Vec<u8>> {
    let mut bytes = Vec::new(alloc);
    for index in 0..(geo.servers - 1) as u8 {
        for place in 0..256 {
            bytes.push(byte_of(index, place))?;
        }
    }
    Ok(bytes)
}

#[test]
fn any_one_server_may_be_down(rt: HostRuntime) -> Result<(), Fail> {
    for servers in [3, 4, 16] {
        let geo = Geometry::new(servers, 1, 256, 64, 8)?;
        let all = stripe(rt.alloc(), &geo)?;
        for server in 0..=servers as u8 {
            match read(rt.alloc(), &geo, None, [server, server])? {
                Got::Bytes(bytes) => assert_eq!(rt; bytes.slice(), all.as_slice()),
                _ => assert!(rt; false, "server {server} of {servers} is down"),
            }
        }
    }
    Ok(())
}

#[test]
fn two_servers_are_named(rt: HostRuntime) -> Result<(), Fail> {
    for (servers, out, down) in [
        (3, None, [2, 3]),
        (3, Some(ServerId(3)), [2, 3]),
        (3, Some(ServerId(2)), [2, 3]),
        (4, None, [1, 4]),
        (4, Some(ServerId(4)), [2, 4]),
        (4, Some(ServerId(3)), [3, 4]),
        (16, None, [1, 2]),
        (16, None, [7, 16]),
        (16, Some(ServerId(9)), [5, 9]),
        (16, Some(ServerId(1)), [1, 16]),
    ] {
        let geo = Geometry::new(servers, 1, 256, 64, 8)?;
        match read(rt.alloc(), &geo, out, down)? {
            Got::Unreachable { a, b } => assert_eq!(rt; [a.0, b.0], down),
            _ => assert!(rt; false, "servers {down:?} of {servers} are down"),
        }
    }
    Ok(())
}
