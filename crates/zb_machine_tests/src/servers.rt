use std::alloc::Global;
use zb_types::{
    ByteList, FragId, FragList, LenList, LogId, Mem, Request, Response, ServerId, StoreFault,
};

/// What a server answers.
#[derive(Clone, Copy)]
pub enum Says {
    Done,
    /// The bytes that are asked for; of a parity, that of shares that have all their bytes.
    Bytes,
    /// The names of a fragment of stripe 0 of log 1, and of one of its stripe 3.
    Names,
    NoNames,
    Down,
    Gone,
    Old,
    NoSlot,
}

fn many(alloc: Global, count: u32) -> Mem<ByteList> {
    Ok(ByteList::of(vec![in alloc; 7u8; count as usize]?))
}

fn parity(alloc: Global, count: u32) -> Mem<Response> {
    Ok(Response::Parity {
        lengths: LenList::from_slice(alloc, &[256, 256])?,
        bytes: many(alloc, count)?,
    })
}

fn bytes(alloc: Global, request: &Request) -> Mem<Response> {
    let Request::Retrieve { id, len, .. } = request else {
        return Ok(Response::Done);
    };
    if id.index == 2 {
        return parity(alloc, *len);
    }
    Ok(Response::Bytes(many(alloc, *len)?))
}

fn frag(stripe: u64) -> FragId {
    FragId {
        log: LogId(1),
        stripe,
        index: 0,
    }
}

fn names(alloc: Global) -> Mem<Response> {
    Ok(Response::Ids(FragList::from_slice(alloc, &[frag(0), frag(3)])?))
}

/// A response that needs no memory.
fn plain(says: Says) -> Response {
    match says {
        Says::Down => Response::Down,
        Says::Gone => Response::Refused(StoreFault::NoFragment),
        Says::Old => Response::Refused(StoreFault::OldGeneration { now: 2 }),
        Says::NoSlot => Response::Refused(StoreFault::NoSlot { free: 4 }),
        _ => Response::Done,
    }
}

/// The response to a request.
pub fn response(alloc: Global, request: &Request, says: Says) -> Mem<Response> {
    match says {
        Says::Bytes => bytes(alloc, request),
        Says::Names => names(alloc),
        Says::NoNames => Ok(Response::Ids(FragList::new(alloc)?)),
        _ => Ok(plain(says)),
    }
}

/// A server other than this one.
pub fn other_than(server: ServerId) -> ServerId {
    ServerId(if server.0 == 3 { 1 } else { 3 })
}
