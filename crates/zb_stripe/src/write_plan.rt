ghost use Rattle.std.specs.Prelude.{◌≡◌, ℕ, ◌-◌, ◌*◌, ◌<◌, ◌++◌, IfOk, OnOk, length, All, option_map, slice_get};
ghost use Rattle.zb_holding.specs.Holding.{is_away};
ghost use Rattle.zb_stripe.specs.declared.flush.Part.{Part};
ghost use Rattle.zb_stripe.specs.declared.flush.Flush.{Flush};
ghost use Rattle.zb_stripe.specs.Writing.{grow, share_request, parity_request, part_requests, plan_requests};
ghost use Rattle.zb_stripe.specs.Fresh.{IsFresh, IsFreshFlush, HasRoom};
ghost use Rattle.zb_stripe.specs.Feeding.{fed_by, left_after};

use crate::flush::{Fresh, FreshFlush};
use crate::parity::{lengths, new_of_share};
use std::alloc::Global;
use std::marker::Model;
use zb_layout::{server_of, share};
use zb_types::{
    ByteList, Class, FragId, Geometry, LogId, Mem, Request, Response, ServerId, StoreFault,
};

/// What an answer makes of a write.
#[derive(Clone, Copy, Debug, PartialEq, Eq)]
pub enum Fed {
    /// Another request stands.
    More,
    /// All requests are carried out.
    Done,
    /// The server is down or blank.
    Down { server: ServerId },
    /// The server has no slot for who asks; `free` are free.
    NoSpace { server: ServerId, free: u32 },
    /// A server has a fence at generation `now`.
    Old { now: u64 },
    /// A server wanted memory.
    NoMemory,
}

/// The requests that write a flush, of which contracts see those that are left, each with its server.
#[derive(Drop)]
pub struct WritePlan {
    requests: Vec<(ServerId, Request)>,
    at: usize,
}

impl Model for WritePlan {
    ghost use Rattle.std.specs.Prelude.{List, ◌≤◌, drop, length};
    ghost use Rattle.zb_types.specs.declared.ids.ServerId.{ServerId};
    ghost use Rattle.zb_types.specs.declared.requests.Request.{Request};

    ghost Value = { List (ServerId × Request) };

    ghost view = { λ a. drop a.at a.requests.items };

    ghost invariant = { λ a. a.at ≤ length a.requests.items };
}

/// What all requests of a plan share: the sizes, the log, the server that is left away, and who asks.
#[derive(Clone, Copy)]
pub(crate) struct Setting {
    geo: Geometry,
    log: LogId,
    out: Option<ServerId>,
    class: Class,
}

/// Whether a server is the one that is left away.
pub(crate) fn is_out(out: Option<ServerId>, server: ServerId) -> bool
    ensures { result ≡ is_away out server }
{
    match out {
        Some(gone) => gone.0 == server.0,
        None => false,
    }
}

/// What adds bytes to a share that has some.
fn grow(id: FragId, class: Class, had: u32, bytes: ByteList) -> Request
    ensures { result ≡ grow id class had bytes }
{
    if had == 0 {
        Request::Store { id, bytes, class }
    } else {
        Request::Append {
            id,
            place: had,
            bytes,
        }
    }
}

/// Adds the request for share `k`, where it has new bytes and its server isn't left away.
fn push_share(
    requests: &mut Vec<(ServerId, Request)>,
    alloc: Global,
    to: Setting,
    fresh: &Fresh,
    k: u8,
) -> Mem<()>
    requires fits { HasRoom ((to.geo.servers - 1) * to.geo.fragment) fresh.now }
    requires index { k < to.geo.servers - 1 }
    ensures { OnOk result ((part : Part) → IsFresh to.geo.servers to.geo.fragment part fresh.now
        → requests.new.items
        ≡ requests.old.items ++ share_request to.geo.servers to.geo.fragment to.out to.class to.log part k) }
{
    let new = new_of_share(&to.geo, fresh.begin, fresh.bytes.slice(), k);
    if new.is_empty() {
        return Ok(());
    }
    let id = FragId {
        log: to.log,
        stripe: fresh.stripe,
        index: k,
    };
    let server = server_of(&to.geo, id);
    if is_out(to.out, server) {
        return Ok(());
    }
    let had = share(&to.geo, fresh.begin, k);
    let bytes = ByteList::from_slice(alloc, new)?;
    requests.push((server, grow(id, to.class, had, bytes)))?;
    Ok(())
}

/// Adds the request for the parity, where its server isn't left away.
fn push_parity(
    requests: &mut Vec<(ServerId, Request)>,
    alloc: Global,
    to: Setting,
    fresh: &Fresh,
) -> Mem<()>
    requires fits { HasRoom ((to.geo.servers - 1) * to.geo.fragment) fresh.now }
    ensures { OnOk result ((part : Part) → IsFresh to.geo.servers to.geo.fragment part fresh.now
        → requests.new.items
        ≡ requests.old.items ++ parity_request to.geo.servers to.geo.fragment to.out to.class to.log part) }
{
    let id = FragId {
        log: to.log,
        stripe: fresh.stripe,
        index: (to.geo.servers - 1) as u8,
    };
    let server = server_of(&to.geo, id);
    if is_out(to.out, server) {
        return Ok(());
    }
    let lengths = lengths(alloc, &to.geo, fresh.begin + fresh.bytes.len() as u32)?;
    let bytes = fresh.parity.copy(alloc)?;
    let request = Request::Parity {
        id,
        lengths,
        bytes,
        class: to.class,
    };
    requests.push((server, request))?;
    Ok(())
}

/// Adds the requests of a part, of which this is new.
fn push_part(
    requests: &mut Vec<(ServerId, Request)>,
    alloc: Global,
    to: Setting,
    fresh: &Fresh,
) -> Mem<()>
    requires fits { HasRoom ((to.geo.servers - 1) * to.geo.fragment) fresh.now }
    ensures { OnOk result ((part : Part) → IsFresh to.geo.servers to.geo.fragment part fresh.now
        → requests.new.items
        ≡ requests.old.items ++ part_requests to.geo.servers to.geo.fragment to.out to.class to.log part) }
{
    for k in 0..(to.geo.servers - 1) as u8 {
        push_share(requests, alloc, to, fresh, k)?;
    }
    push_parity(requests, alloc, to, fresh)?;
    Ok(())
}

impl WritePlan {
    /// For each part in order its new bytes by share, then its parity over all its bytes. Requests to `out`, the server
    /// that is left away, are left out; the parity covers its share as if it were sent. The slots are asked for as
    /// `class`.
    pub fn new(
        alloc: Global,
        geo: &Geometry,
        fresh: &FreshFlush,
        out: Option<ServerId>,
        class: Class,
    ) -> Mem<WritePlan>
        requires { All (HasRoom ((geo.now.servers - 1) * geo.now.fragment)) fresh.now.parts }

        // It is the plan of each flush of which this is new, whatever stood before in its stripes.
        ensures { IfOk result (λ plan. (flush : Flush) → IsFreshFlush geo.now.servers geo.now.fragment flush fresh.now
            → plan ≡ plan_requests geo.now.servers geo.now.fragment out class flush) }
    {
        let to = Setting {
            geo: *geo,
            log: fresh.log,
            out,
            class,
        };
        let mut requests = Vec::new(alloc);
        for part in fresh.parts.slice() {
            push_part(&mut requests, alloc, to, part)?;
        }
        Ok(WritePlan { requests, at: 0 })
    }

    /// The request that stands, with the server that it goes to. None where all are carried out.
    pub fn next(&self) -> Option<(ServerId, &Request)>
        ensures { option_map (λ p. (p.0, p.1.now)) result ≡ slice_get self.now 0 }
    {
        match self.requests.as_slice().get(self.at) {
            Some((server, request)) => Some((*server, request)),
            None => None,
        }
    }

    /// Takes the answer to the request that stands. Only `Done` goes on to the next; after any other the plan is as
    /// before. An answer that no write has comes to the same as one of a server that is down. Where no request stands,
    /// all are carried out.
    pub fn feed(&mut self, response: &Response) -> Fed
        ensures fed { result ≡ fed_by self.old response.now }
        ensures left { self.new ≡ left_after self.old response.now }
    {
        let Some((server, _)) = self.requests.as_slice().get(self.at) else {
            return Fed::Done;
        };
        let server = *server;
        match response {
            Response::Done => {
                self.at += 1;
                if self.at < self.requests.len() {
                    Fed::More
                } else {
                    Fed::Done
                }
            }
            Response::Refused(StoreFault::NoSlot { free }) => Fed::NoSpace {
                server,
                free: *free,
            },
            Response::Refused(StoreFault::OldGeneration { now }) => Fed::Old { now: *now },
            Response::Refused(StoreFault::NoMemory) => Fed::NoMemory,
            _ => Fed::Down { server },
        }
    }
}
