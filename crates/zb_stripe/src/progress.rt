ghost use Rattle.zb_stripe.specs.declared.progress.Progress.{Progress};
ghost use Rattle.std.specs.Prelude.{◌≡◌, ◌≢◌, ℕ, Bool, List, [], ◌+◌, ◌-◌, ◌*◌, ◌<◌, ◌≤◌, IfOk, length, slice_index_or, true, false};
ghost use Rattle.zb_holding.specs.Exclusive.{xored};
ghost use Rattle.zb_stripe.specs.Reading.{
  reading,
  read_of,
  asked,
  entered,
  advanced,
  sought,
  index_of,
  place_of,
  len_of,
  gained,
  blocked_in,
  fed,
  is_lost,
  IsSound,
  OwnIsLost,
  IsCovered,
  CanRead,
  BringsBytes,
};

use crate::source::Source;
use std::alloc::Global;
use zb_layout::{Span, server_of};
use zb_parity::xor_into;
use zb_types::{ByteList, LenList, Mem, Request, Response, ServerId};

/// What is asked for a range of a share: the range itself, its parity, or another share that the parity covers into the
/// range. By then the lengths that the parity covers and the sum of what was answered are kept.
#[derive(Drop)]
pub enum Phase {
    Direct,
    Lengths,
    Others {
        lengths: LenList,
        sum: ByteList,
        index: u8,
    },
}

/// How far a read has come.
#[derive(Drop)]
pub(crate) struct Progress {
    pub(crate) read: ByteList,
    pub(crate) phase: Phase,
}

impl Progress {
    pub(crate) fn copy(&self, alloc: Global) -> Mem<Progress>
        ensures { IfOk result (λ made. made ≡ self.now) }
    {
        let read = self.read.copy(alloc)?;
        let phase = match &self.phase {
            Phase::Direct => Phase::Direct,
            Phase::Lengths => Phase::Lengths,
            Phase::Others {
                lengths,
                sum,
                index,
            } => Phase::Others {
                lengths: lengths.copy(alloc)?,
                sum: sum.copy(alloc)?,
                index: *index,
            },
        };
        Ok(Progress { read, phase })
    }
}

/// The range that is next, behind what is read: it has no bytes where all is read.
pub(crate) fn range(source: &Source, read: &ByteList) -> Span
    requires below { length read.now ≤ source.now.ptr.len }
    ensures index { result.index ≡ index_of (reading source.now [] read.now) }
    ensures place { result.place ≡ place_of (reading source.now [] read.now) }
    ensures len { result.len ≡ len_of (reading source.now [] read.now) }
{
    let pos = source.ptr.offset + read.len() as u32;
    let end = source.ptr.offset + source.ptr.len;
    let place = pos % source.geo.fragment;
    Span {
        index: (pos / source.geo.fragment) as u8,
        place,
        len: (end - pos).min(source.geo.fragment - place),
    }
}

/// Whether the server of fragment `k` is known to be out, down or blank.
pub(crate) fn is_lost(lost: &[bool], k: u8) -> bool
    ensures { result ≡ slice_index_or lost.now k false }
{
    match lost.get(usize::from(k)) {
        Some(lost) => *lost,
        None => false,
    }
}

/// Asks for the next range directly, but for its parity where its server is lost.
pub(crate) fn enter(source: &Source, lost: &[bool], read: ByteList) -> Progress
    requires below { length read ≤ source.now.ptr.len }
    ensures entered { read_of source.now lost.now result ≡ entered (reading source.now lost.now read) }
    ensures sound { IsSound (read_of source.now lost.now result) }
    ensures own { OwnIsLost (read_of source.now lost.now result) result.phase }
{
    let next = range(source, &read);
    let phase = if next.len > 0 && is_lost(lost, next.index) {
        Phase::Lengths
    } else {
        Phase::Direct
    };
    Progress { read, phase }
}

/// The bytes of a range are there.
fn advance(
    alloc: Global,
    source: &Source,
    lost: &[bool],
    read: &ByteList,
    bytes: &[u8],
) -> Mem<Progress>
    requires below { length read.now + length bytes.now ≤ source.now.ptr.len }
    ensures advanced { IfOk result
        (λ p. read_of source.now lost.now p ≡ advanced (reading source.now lost.now read.now) bytes.now) }
    ensures sound { IfOk result (λ p. IsSound (read_of source.now lost.now p)) }
    ensures own { IfOk result (λ p. OwnIsLost (read_of source.now lost.now p) p.phase) }
{
    let mut all = Vec::from_slice(alloc, read.slice())?;
    all.extend_from_slice(bytes)?;
    Ok(enter(source, lost, ByteList::of(all)))
}

/// The first share, from `from` on, that the parity covers into the range, or the parity's own index.
fn next_covered(source: &Source, read: &ByteList, lengths: &LenList, from: u8) -> u8
    requires below { length read.now ≤ source.now.ptr.len }
    requires count { length lengths.now ≡ source.now.geo.servers - 1 }
    requires first { from ≤ source.now.geo.servers - 1 }
    ensures within { result ≤ source.now.geo.servers - 1 }
    ensures covered { result < source.now.geo.servers - 1
        → IsCovered (reading source.now [] read.now) lengths.now result }
    ensures skipped { (lost : List Bool) (sum : List ℕ)
        → sought (reading source.now lost read.now) lengths.now sum (source.now.geo.servers - 1 - result)
        ≡ sought (reading source.now lost read.now) lengths.now sum (source.now.geo.servers - 1 - from) }
{
    let next = range(source, read);
    let own = next.index;
    let place = next.place;
    let lengths = lengths.slice();
    for k in from..source.parity() {
        if k != own && lengths[usize::from(k)] > place {
            return k;
        }
    }
    source.parity()
}

/// Asks the next share, from `from` on, that the parity covers into the range. Where there is none, the sum is the range.
fn seek(
    alloc: Global,
    source: &Source,
    lost: &[bool],
    read: &ByteList,
    lengths: &LenList,
    sum: ByteList,
    from: u8,
) -> Mem<Progress>
    requires below { length read.now < source.now.ptr.len }
    requires long { length sum ≡ len_of (reading source.now [] read.now) }
    requires count { length lengths.now ≡ source.now.geo.servers - 1 }
    requires first { from ≤ source.now.geo.servers - 1 }
    requires own { is_lost (reading source.now lost.now read.now) (index_of (reading source.now lost.now read.now)) ≡ true }
    ensures sought { IfOk result (λ p. read_of source.now lost.now p
        ≡ sought (reading source.now lost.now read.now) lengths.now sum (source.now.geo.servers - 1 - from)) }
    ensures sound { IfOk result (λ p. IsSound (read_of source.now lost.now p)) }
    ensures own { IfOk result (λ p. OwnIsLost (read_of source.now lost.now p) p.phase) }
{
    let index = next_covered(source, read, lengths, from);
    if index == source.parity() {
        return advance(alloc, source, lost, read, sum.slice());
    }
    let lengths = lengths.copy(alloc)?;
    let read = read.copy(alloc)?;
    let phase = Phase::Others {
        lengths,
        sum,
        index,
    };
    Ok(Progress { read, phase })
}

/// The sum of a range with another's bytes put in.
fn put_in(alloc: Global, sum: &ByteList, bytes: &ByteList) -> Mem<ByteList>
    requires { length bytes.now ≤ length sum.now }
    ensures { IfOk result (λ list. list ≡ xored sum.now bytes.now) }
{
    let mut all = Vec::from_slice(alloc, sum.slice())?;
    xor_into(&mut all, bytes.slice());
    Ok(ByteList::of(all))
}

/// Where an answer that brings bytes leads.
pub(crate) fn gather(
    alloc: Global,
    source: &Source,
    lost: &[bool],
    p: &Progress,
    response: &Response,
) -> Mem<Progress>
    requires sound { IsSound (read_of source.now lost.now p.now) }
    requires own { OwnIsLost (read_of source.now lost.now p.now) p.now.phase }
    requires can { CanRead (read_of source.now lost.now p.now) response.now }
    requires brings { BringsBytes response.now }
    ensures gathered { IfOk result
        (λ new. gained (read_of source.now lost.now p.now) (read_of source.now lost.now new)
        ≡ fed (read_of source.now lost.now p.now) response.now) }
    ensures sound { IfOk result (λ new. IsSound (read_of source.now lost.now new)) }
    ensures own { IfOk result (λ new. OwnIsLost (read_of source.now lost.now new) new.phase) }
{
    match response {
        Response::Bytes(bytes) => match &p.phase {
            Phase::Direct => advance(alloc, source, lost, &p.read, bytes.slice()),
            Phase::Others {
                lengths,
                sum,
                index,
            } => {
                let sum = put_in(alloc, sum, bytes)?;
                seek(alloc, source, lost, &p.read, lengths, sum, *index + 1)
            }
            Phase::Lengths => unreachable!(),
        },
        Response::Parity { lengths, bytes } => {
            let sum = bytes.copy(alloc)?;
            seek(alloc, source, lost, &p.read, lengths, sum, 0)
        }
        _ => unreachable!(),
    }
}

/// The request that stands.
pub(crate) fn ask(source: &Source, p: &Progress) -> Option<(ServerId, Request)>
    requires sound { IsSound (read_of source.now [] p.now) }
    ensures { result ≡ asked (read_of source.now [] p.now) }
{
    let next = range(source, &p.read);
    let (index, len) = match &p.phase {
        Phase::Direct => {
            if next.len == 0 {
                return None;
            }
            (next.index, next.len)
        }
        Phase::Lengths => (source.parity(), next.len),
        Phase::Others { lengths, index, .. } => {
            let reach = lengths.slice()[usize::from(*index)] - next.place;
            (*index, next.len.min(reach))
        }
    };
    let id = source.fragment(index);
    let request = Request::Retrieve {
        id,
        place: next.place,
        len,
    };
    Some((server_of(&source.geo, id), request))
}

/// The fragment that would be asked in place of the range's own, where its server is lost too.
pub(crate) fn blocked(source: &Source, lost: &[bool], p: &Progress) -> Option<u8>
    ensures { result ≡ blocked_in (read_of source.now lost.now p.now) p.now.phase }
{
    let stand_in = match &p.phase {
        Phase::Direct => return None,
        Phase::Lengths => source.parity(),
        Phase::Others { index, .. } => *index,
    };
    if is_lost(lost, stand_in) {
        Some(stand_in)
    } else {
        None
    }
}
