ghost use Rattle.std.specs.Prelude.{◌≡◌, ◌+◌, ◌^◌, ◌<◌, ℕ, List, true, IfOk, OnOk, OnErr, length, Some, None};
ghost use Rattle.zb_types.specs.declared.ids.FragId.{FragId};
ghost use Rattle.zb_types.specs.declared.requests.Request.TheVariants as ask;
ghost use Rattle.zb_holding.specs.Fragments.{share_fragment, parity_fragment};
ghost use Rattle.zb_holding.specs.Carrying.{found, stands_after};
ghost use Rattle.zb_holding.specs.Rules.{size_of, refusal_up_to, refusal_to_append};
ghost use Rattle.zb_servers.specs.Keeping.{fragment_of, done_unless};
ghost use Rattle.zb_servers.specs.Serving.{is_refused};

use crate::body::Body;
use std::alloc::Global;
use std::marker::Model;
use zb_types::{ByteList, LenList, Mem, Response, StoreFault};

/// A share, or the parity of a stripe's shares with the length that it covers of each.
#[derive(Drop)]
enum Form {
    Share(Body),
    Parity { lengths: LenList, bytes: Body },
}

/// What stands under a name, which contracts see as a fragment.
#[derive(Drop)]
pub(crate) struct Kept {
    form: Form,
}

impl Model for Kept {
    ghost use Rattle.zb_holding.specs.Fragments.{Fragment};
    ghost use Rattle.zb_servers.specs.Keeping.{fragment_of};

    ghost Value = { Fragment };

    ghost view = { λ a. fragment_of a.form };
}

/// Puts bytes to the end of a share, where the place is its end, or finds that they stand there already.
fn append_to_share(share: &mut Body, place: u32, bytes: &[u8]) -> Mem<Response>
    requires { place + length bytes.now < 2 ^ 32 }
    ensures answer { IfOk result
        (λ answer. answer ≡ done_unless (refusal_to_append (share_fragment share.old) place bytes.now)) }
    ensures carried { OnOk result ((id : FragId) → Some (share_fragment share.new)
        ≡ stands_after (ask.Append id place bytes.now) (Some (share_fragment share.old))) }
    ensures refused { IfOk result (λ answer. is_refused answer ≡ true → share.new ≡ share.old) }
    ensures err { OnErr result (share.new ≡ share.old) }
{
    if share.stand_at(place, bytes) {
        return Ok(Response::Done);
    }
    if place != share.len() {
        return Ok(Response::Refused(StoreFault::Offset { len: share.len() }));
    }
    share.extend(bytes)?;
    Ok(Response::Done)
}

/// A parity isn't extended: it only has bytes that stand there already.
fn append_to_parity(parity: &Body, place: u32, bytes: &[u8]) -> Response
    ensures { (lengths : List ℕ) → result ≡ done_unless (refusal_to_append (parity_fragment lengths parity.now) place bytes.now) }
{
    if parity.stand_at(place, bytes) {
        Response::Done
    } else {
        Response::Refused(StoreFault::Offset { len: parity.len() })
    }
}

impl Form {
    fn append(&mut self, place: u32, bytes: &[u8]) -> Mem<Response>
        requires { place + length bytes.now < 2 ^ 32 }
        ensures answer { IfOk result
            (λ answer. answer ≡ done_unless (refusal_to_append (fragment_of self.old) place bytes.now)) }
        ensures carried { OnOk result ((id : FragId) → Some (fragment_of self.new)
            ≡ stands_after (ask.Append id place bytes.now) (Some (fragment_of self.old))) }
        ensures refused { IfOk result (λ answer. is_refused answer ≡ true → self.new ≡ self.old) }
        ensures err { OnErr result (self.new ≡ self.old) }
    {
        match self {
            Form::Share(share) => append_to_share(share, place, bytes),
            Form::Parity { bytes: parity, .. } => Ok(append_to_parity(parity, place, bytes)),
        }
    }
}

impl Kept {
    pub(crate) fn share(alloc: Global, bytes: &[u8]) -> Mem<Kept>
        requires { length bytes.now < 2 ^ 32 }
        ensures { IfOk result (λ kept. kept ≡ share_fragment bytes.now) }
    {
        Ok(Kept {
            form: Form::Share(Body::new(alloc, bytes)?),
        })
    }

    pub(crate) fn parity(alloc: Global, lengths: &LenList, bytes: &[u8]) -> Mem<Kept>
        requires { length bytes.now < 2 ^ 32 }
        ensures { IfOk result (λ kept. kept ≡ parity_fragment lengths.now bytes.now) }
    {
        let lengths = lengths.copy(alloc)?;
        let bytes = Body::new(alloc, bytes)?;
        Ok(Kept {
            form: Form::Parity { lengths, bytes },
        })
    }

    /// Why a range isn't read that ends there.
    pub(crate) fn refusal_up_to(&self, end: u64) -> Option<StoreFault>
        ensures { result ≡ refusal_up_to (Some (size_of self.now)) end }
    {
        match &self.form {
            Form::Share(share) if end > u64::from(share.len()) => {
                Some(StoreFault::Short { len: share.len() })
            }
            _ => None,
        }
    }

    /// A range of a share, or the lengths and a range of a parity.
    pub(crate) fn retrieve(&self, alloc: Global, place: u32, len: u32) -> Mem<Response>
        requires { refusal_up_to (Some (size_of self.now)) (place + len) ≡ None }
        ensures { IfOk result (λ answer. answer ≡ found (Some self.now) place len) }
    {
        match &self.form {
            Form::Share(share) => {
                let bytes = share.part(alloc, place, len)?;
                Ok(Response::Bytes(ByteList::of(bytes)))
            }
            Form::Parity { lengths, bytes } => {
                let lengths = lengths.copy(alloc)?;
                let bytes = bytes.padded(alloc, place, len)?;
                Ok(Response::Parity { lengths, bytes })
            }
        }
    }

    /// Puts bytes to the end of a share. Where memory runs out nothing has changed.
    pub(crate) fn append(&mut self, place: u32, bytes: &[u8]) -> Mem<Response>
        requires { place + length bytes.now < 2 ^ 32 }
        ensures answer { IfOk result
            (λ answer. answer ≡ done_unless (refusal_to_append self.old place bytes.now)) }
        ensures carried { OnOk result ((id : FragId) → Some self.new
            ≡ stands_after (ask.Append id place bytes.now) (Some self.old)) }
        ensures refused { IfOk result (λ answer. is_refused answer ≡ true → self.new ≡ self.old) }
        ensures err { OnErr result (self.new ≡ self.old) }
    {
        self.form.append(place, bytes)
    }
}
