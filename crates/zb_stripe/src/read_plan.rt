ghost use Rattle.std.specs.Prelude.{◌≡◌, ℕ, true, false, List, [], ◌+◌, ◌-◌, ◌*◌, ◌<◌, ◌≤◌, IfOk, OnOk, OnErr, length, map, option_map};
ghost use Rattle.std.specs.List.{range_with_len};
ghost use Rattle.zb_types.specs.declared.ids.ServerId.{ServerId};
ghost use Rattle.zb_types.specs.declared.ids.FragId.{FragId};
ghost use Rattle.zb_stripe.specs.Reading.{
  reading,
  read_of,
  start,
  first_lost,
  asked,
  gained,
  two_lost,
  names_two,
  pos_of,
  end_of,
  index_of,
  fed,
  Answers,
  AnswersRetrieve,
  CanRead,
  BringsBytes,
  MayWant,
  lacks_bytes,
  is_gone,
  NamesLost,
};

use crate::progress::{Phase, Progress, ask, blocked, enter, gather, is_lost, range};
use crate::source::Source;
use crate::write_plan::is_out;
use std::alloc::Global;
use std::marker::Model;
use zb_layout::server_of;
use zb_types::{
    ByteList, FragId, Geometry, Mem, NoMemory, Ptr, Request, Response, ServerId, StoreFault,
};

/// What an answer makes of a read.
#[derive(Drop)]
pub enum Got {
    /// Another request stands.
    More,
    /// The bytes of the pointer.
    Bytes(ByteList),
    /// Two servers, the lesser number first, are left away, down or blank, and the bytes can't be read without both.
    Unreachable { a: ServerId, b: ServerId },
    /// A fragment isn't there or is too short.
    Gone,
    /// A server has a fence at generation `now`.
    Old { now: u64 },
}

/// The requests that read the bytes of a pointer, range by range. Contracts see how far it has come.
#[derive(Drop)]
pub struct ReadPlan {
    source: Source,
    lost: Vec<bool>,
    progress: Progress,
    request: Option<(ServerId, Request)>,
}

impl Model for ReadPlan {
    ghost use Rattle.std.specs.Prelude.{◌≡◌, length};
    ghost use Rattle.zb_stripe.specs.Reading.{Reading, read_of, asked, IsSound, OwnIsLost};

    ghost Value = { Reading };

    ghost view = { λ a. read_of a.source a.lost.items a.progress };

    ghost invariant = { λ a. (a.request ≡ asked (read_of a.source a.lost.items a.progress))
        × IsSound (read_of a.source a.lost.items a.progress)
        × OwnIsLost (read_of a.source a.lost.items a.progress) a.progress.phase
        × (length a.lost.items ≡ a.source.geo.servers) };
}

/// For each index of a pointer's stripe, whether its server is left away.
fn out_indexes(alloc: Global, geo: &Geometry, ptr: &Ptr, out: Option<ServerId>) -> Mem<Vec<bool>>
    ensures exact { IfOk result (λ lost. lost.items ≡ first_lost geo.now.servers ptr.now out) }
    ensures count { IfOk result (λ lost. length lost.items ≡ geo.now.servers) }
{
    let mut lost = Vec::new(alloc);
    for index in 0..geo.servers as u8 {
        let id = FragId {
            log: ptr.log,
            stripe: ptr.stripe,
            index,
        };
        lost.push(is_out(out, server_of(geo, id)))?;
    }
    Ok(lost)
}

/// The two servers of the next range and of fragment `k` of its stripe.
fn two_lost(source: &Source, read: &ByteList, k: u8) -> Got
    requires below { length read.now ≤ source.now.ptr.len }
    ensures { result ≡ two_lost (reading source.now [] read.now) k }
{
    let own = server_of(&source.geo, source.fragment(range(source, read).index));
    let other = server_of(&source.geo, source.fragment(k));
    if own.0 < other.0 {
        Got::Unreachable { a: own, b: other }
    } else {
        Got::Unreachable { a: other, b: own }
    }
}

/// Whether a read has all bytes.
fn gain(alloc: Global, ptr: &Ptr, read: &ByteList) -> Mem<Got>
    requires below { length read.now ≤ ptr.now.len }
    ensures more { IfOk result (λ got. length read.now < ptr.now.len → got ≡ Got.More) }
    ensures bytes { IfOk result (λ got. ptr.now.len ≤ length read.now → got ≡ Got.Bytes read.now) }
{
    if read.len() == ptr.len as usize {
        Ok(Got::Bytes(read.copy(alloc)?))
    } else {
        Ok(Got::More)
    }
}

/// Whether a fault may refuse a retrieve.
fn may_refuse(fault: &StoreFault) -> bool
    ensures fits { (servers : ℕ) (id : FragId) (len : ℕ)
        → result ≡ true → AnswersRetrieve servers id len (Response.Refused fault.now) }
    ensures differs { (servers : ℕ) (id : FragId) (len : ℕ)
        → result ≡ false → ¬ (AnswersRetrieve servers id len (Response.Refused fault.now)) }
{
    match fault {
        StoreFault::NoFragment
        | StoreFault::Short { .. }
        | StoreFault::OldGeneration { .. }
        | StoreFault::NoMemory => true,
        _ => false,
    }
}

/// Whether this may answer a retrieve of `len` bytes of a fragment, placed among so many servers.
fn may_answer(servers: u32, id: FragId, len: u32, response: &Response) -> bool
    requires { 0 < servers }
    ensures fits { result ≡ true → AnswersRetrieve servers id len response.now }
    ensures differs { result ≡ false → ¬ (AnswersRetrieve servers id len response.now) }
{
    let of_parity = u32::from(id.index) == servers - 1;
    match response {
        Response::Bytes(bytes) => !of_parity && bytes.len() == len as usize,
        Response::Parity { lengths, bytes } => {
            of_parity && lengths.len() == (servers - 1) as usize && bytes.len() == len as usize
        }
        Response::Refused(fault) => may_refuse(fault),
        Response::Down | Response::Blank => true,
        Response::Done | Response::Ids(_) => false,
    }
}

impl ReadPlan {
    /// Each range of the pointer, in order: from its server; where that is left away, down or blank, from the parity
    /// for the same range and then by index from each other share that the parity covers into the range. `out` is the
    /// server that is left away.
    pub fn new(alloc: Global, geo: &Geometry, ptr: &Ptr, out: Option<ServerId>) -> Mem<ReadPlan>
        requires { ptr.now.offset + ptr.now.len ≤ (geo.now.servers - 1) * geo.now.fragment }
        ensures { IfOk result (λ plan. plan ≡ start geo.now.servers geo.now.fragment ptr.now out) }
    {
        let source = Source {
            geo: *geo,
            ptr: *ptr,
        };
        let lost = out_indexes(alloc, geo, ptr, out)?;
        let progress = enter(&source, &lost, ByteList::new(alloc)?);
        let request = ask(&source, &progress);
        Ok(ReadPlan {
            source,
            lost,
            progress,
            request,
        })
    }

    /// The same read once more, so that it may be fed and given up for want of memory.
    pub fn copy(&self, alloc: Global) -> Mem<ReadPlan>
        ensures { IfOk result (λ plan. plan ≡ self.now) }
    {
        let lost = Vec::from_slice(alloc, &self.lost)?;
        let progress = self.progress.copy(alloc)?;
        let request = ask(&self.source, &progress);
        Ok(ReadPlan {
            source: self.source,
            lost,
            progress,
            request,
        })
    }

    /// The request that stands, with the server that it goes to. None where the bytes are there.
    pub fn next(&self) -> Option<(ServerId, &Request)>
        ensures { option_map (λ p. (p.0, p.1.now)) result ≡ asked self.now }
    {
        match &self.request {
            Some((server, request)) => Some((*server, request)),
            None => None,
        }
    }

    /// The server that was asked doesn't answer.
    fn lose(&mut self) -> Got
        requires { pos_of self.old < end_of self.old }
        ensures new { self.new ≡ (fed self.old Response.Down).0 }
        ensures got { result ≡ (fed self.old Response.Down).1 }
        ensures servers { self.new.servers ≡ self.old.servers }
        ensures fragment { self.new.fragment ≡ self.old.fragment }
        ensures ptr { self.new.ptr ≡ self.old.ptr }
    {
        let parity = self.source.parity();
        match &self.progress.phase {
            Phase::Lengths => two_lost(&self.source, &self.progress.read, parity),
            Phase::Others { index, .. } => two_lost(&self.source, &self.progress.read, *index),
            Phase::Direct => {
                if is_lost(&self.lost, parity) {
                    return two_lost(&self.source, &self.progress.read, parity);
                }
                let own = range(&self.source, &self.progress.read).index;
                self.lost[usize::from(own)] = true;
                self.progress.phase = Phase::Lengths;
                self.request = ask(&self.source, &self.progress);
                Got::More
            }
        }
    }

    /// Takes bytes, or a parity.
    fn take(&mut self, alloc: Global, response: &Response) -> Mem<Got>
        requires can { CanRead self.old response.now }
        requires brings { BringsBytes response.now }
        ensures ok { OnOk result (self.new ≡ (fed self.old response.now).0) }
        ensures got { IfOk result (λ got. got ≡ (fed self.old response.now).1) }
        ensures err { OnErr result (self.new ≡ self.old) }
        ensures servers { self.new.servers ≡ self.old.servers }
        ensures fragment { self.new.fragment ≡ self.old.fragment }
        ensures ptr { self.new.ptr ≡ self.old.ptr }
    {
        let progress = gather(alloc, &self.source, &self.lost, &self.progress, response)?;
        if let Some(k) = blocked(&self.source, &self.lost, &progress) {
            return Ok(two_lost(&self.source, &progress.read, k));
        }
        let got = gain(alloc, &self.source.ptr, &progress.read)?;
        self.request = ask(&self.source, &progress);
        self.progress = progress;
        Ok(got)
    }

    /// Takes any answer.
    fn hear(&mut self, alloc: Global, response: &Response) -> Mem<Got>
        requires { CanRead self.old response.now }
        ensures ok { OnOk result (self.new ≡ (fed self.old response.now).0) }
        ensures got { IfOk result (λ got. got ≡ (fed self.old response.now).1) }
        ensures err { OnErr result (self.new ≡ self.old) }
        ensures cause { OnErr result (MayWant response.now) }
        ensures servers { self.new.servers ≡ self.old.servers }
        ensures fragment { self.new.fragment ≡ self.old.fragment }
        ensures ptr { self.new.ptr ≡ self.old.ptr }
    {
        match response {
            Response::Bytes(_) | Response::Parity { .. } => self.take(alloc, response),
            Response::Refused(StoreFault::NoMemory) => Err(NoMemory),
            Response::Refused(StoreFault::OldGeneration { now }) => Ok(Got::Old { now: *now }),
            Response::Down | Response::Blank => Ok(self.lose()),
            _ => Ok(Got::Gone),
        }
    }

    /// Whether this may answer the request that stands. A server whose disk tells nothing may answer anything, so who
    /// asks one looks first.
    pub fn fits(&self, response: &Response) -> bool
        ensures fits { result ≡ true → Answers self.now.servers (asked self.now) response.now }
        ensures differs { result ≡ false → ¬ (Answers self.now.servers (asked self.now) response.now) }
    {
        match self.next() {
            Some((_, Request::Retrieve { id, len, .. })) => {
                may_answer(self.source.geo.servers, *id, *len, response)
            }
            _ => false,
        }
    }

    /// Takes the answer to the request that stands. After an answer that ends the read short of its bytes the plan is
    /// as before.
    pub fn feed(&mut self, alloc: Global, response: &Response) -> Mem<Got>
        requires { Answers self.old.servers (asked self.old) response.now }
        ensures ok { OnOk result (self.new ≡ (fed self.old response.now).0) }
        ensures got { IfOk result (λ got. got ≡ (fed self.old response.now).1) }

        // Unreachable names two different servers, each of which was left away, or was answered down or blank, by now.
        ensures two { IfOk result (NamesLost self.old (asked self.old) response.now) }

        // Gone comes exactly where the bytes aren't there.
        ensures gone { IfOk result (λ got. is_gone got ≡ lacks_bytes response.now) }
        ensures err { OnErr result (self.new ≡ self.old) }

        // Memory is wanted for bytes alone, or was by the server.
        ensures cause { OnErr result (MayWant response.now) }
        ensures servers { self.new.servers ≡ self.old.servers }
        ensures fragment { self.new.fragment ≡ self.old.fragment }
        ensures ptr { self.new.ptr ≡ self.old.ptr }
    {
        // Names a field, so that what holds of the plan's fields is known here.
        let _ = &self.source;
        self.hear(alloc, response)
    }
}
