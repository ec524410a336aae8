ghost use Rattle.std.specs.Prelude.{◌≡◌, ℕ, ◌+◌, ◌^◌, ◌<◌, false, List, IfOk, OnOk, OnErr, length, Some};
ghost use Rattle.zb_types.specs.declared.ids.FragId.{FragId};
ghost use Rattle.zb_types.specs.declared.requests.Request.TheVariants as ask;
ghost use Rattle.zb_holding.specs.Carrying.{found, stands_after};
ghost use Rattle.zb_plain.specs.Standing.{fragment_of};
ghost use Rattle.zb_holding.specs.Rules.{refusal_to_append, is_done};
ghost use Rattle.zb_plain.specs.Answering.{unless_refused};

use crate::body::Body;
use std::alloc::Global;
use zb_types::{ByteList, LenList, Mem, Response, StoreFault};

/// What stands under a name: a share, or the parity of a stripe's shares with the length that it covers of
/// each.
#[derive(Drop)]
pub enum Kept {
    Share(Body),
    Parity { lengths: LenList, bytes: Body },
}

/// Puts bytes to the end of a share, where the place is its end, or finds that they stand there already.
fn append_to_share(share: &mut Body, place: u32, bytes: &[u8]) -> Mem<Response>
    requires { place + length bytes.now < 2 ^ 32 }
    ensures answer { IfOk result
        (λ answer. answer ≡ unless_refused (refusal_to_append (fragment_of (Kept.Share share.old)) place bytes.now) Response.Done) }
    ensures carried { OnOk result ((id : FragId) → Some (fragment_of (Kept.Share share.new))
        ≡ stands_after (ask.Append id place bytes.now) (Some (fragment_of (Kept.Share share.old)))) }
    ensures same { IfOk result (λ answer. is_done answer ≡ false → share.new ≡ share.old) }
    ensures err { OnErr result (share.new ≡ share.old) }
{
    if share.stand_at(place, bytes) {
        return Ok(Response::Done);
    }
    if place != share.len() {
        return Ok(Response::Refused(StoreFault::Offset { len: share.len() }));
    }
    share.extend(bytes)?;
    Ok(Response::Done)
}

/// A parity isn't extended: it only has bytes that stand there already.
fn append_to_parity(parity: &Body, place: u32, bytes: &[u8]) -> Response
    ensures { (lengths : List ℕ)
        → result ≡ unless_refused (refusal_to_append (fragment_of (Kept.Parity lengths parity.now)) place bytes.now) Response.Done }
{
    if parity.stand_at(place, bytes) {
        Response::Done
    } else {
        Response::Refused(StoreFault::Offset { len: parity.len() })
    }
}

impl Kept {
    /// A range of a share, or the lengths and a range of a parity.
    pub(crate) fn retrieve(&self, alloc: Global, place: u32, len: u32) -> Mem<Response>
        ensures { IfOk result (λ answer. answer ≡ found (Some (fragment_of self.now)) place len) }
    {
        match self {
            Kept::Share(share) => {
                if u64::from(place) + u64::from(len) > u64::from(share.len()) {
                    return Ok(Response::Refused(StoreFault::Short { len: share.len() }));
                }
                let bytes = share.part(alloc, place, len)?;
                Ok(Response::Bytes(ByteList::of(bytes)))
            }
            Kept::Parity { lengths, bytes } => Ok(Response::Parity {
                lengths: lengths.copy(alloc)?,
                bytes: bytes.padded(alloc, place, len)?,
            }),
        }
    }

    /// Puts bytes to the end of a share. Where memory runs out nothing has changed.
    pub(crate) fn append(&mut self, place: u32, bytes: &[u8]) -> Mem<Response>
        requires { place + length bytes.now < 2 ^ 32 }
        ensures answer { IfOk result
            (λ answer. answer ≡ unless_refused (refusal_to_append (fragment_of self.old) place bytes.now) Response.Done) }
        ensures carried { OnOk result ((id : FragId) → Some (fragment_of self.new)
            ≡ stands_after (ask.Append id place bytes.now) (Some (fragment_of self.old))) }
        ensures same { IfOk result (λ answer. is_done answer ≡ false → self.new ≡ self.old) }
        ensures err { OnErr result (self.new ≡ self.old) }
    {
        match self {
            Kept::Share(share) => append_to_share(share, place, bytes),
            Kept::Parity { bytes: parity, .. } => Ok(append_to_parity(parity, place, bytes)),
        }
    }
}
