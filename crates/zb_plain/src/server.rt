ghost use Rattle.std.specs.Prelude.{◌≡◌, ◌+◌, ◌^◌, ◌<◌, [], false, IfOk, OnOk, OnErr, length, take};
ghost use Rattle.zb_types.specs.declared.nodes.Class.{Class};
ghost use Rattle.zb_types.specs.declared.requests.Request.TheVariants as ask;
ghost use Rattle.zb_holding.specs.Carrying.{found};
ghost use Rattle.zb_plain.specs.Standing.{stands_in, IsAfter, IsInOrder};
ghost use Rattle.zb_holding.specs.Listing.{names_above, most_names};
ghost use Rattle.zb_holding.specs.Rules.{is_done};
ghost use Rattle.zb_plain.specs.Answering.{answer_of, EndsInRange};

use crate::body::Body;
use crate::kept::Kept;
use std::alloc::Global;
use std::collections::BTreeMap;
use std::marker::Model;
use zb_holding::names_above;
use zb_types::{FragId, FragList, LenList, Mem, Request, Response, StoreFault};

/// One server: fragments under their names.
#[derive(Drop)]
pub(crate) struct PlainServer {
    kept: BTreeMap<FragId, Kept>,
}

impl Model for PlainServer {
    ghost use Rattle.zb_plain.specs.Standing.{Entries, IsInOrder};

    ghost Value = { Entries };

    ghost view = { λ a. a.kept.entries };

    ghost invariant = { λ a. IsInOrder a.kept.entries };
}

impl PlainServer {
    pub(crate) fn new(alloc: Global) -> PlainServer
        ensures { result ≡ [] }
    {
        PlainServer {
            kept: BTreeMap::new(alloc),
        }
    }

    /// Stores a share under a name that is free.
    fn store(&mut self, alloc: Global, id: FragId, bytes: &[u8]) -> Mem<Response>
        requires { length bytes.now < 2 ^ 32 }
        ensures answer { IfOk result
            (λ answer. (class : Class) → answer ≡ answer_of self.old (ask.Store id bytes.now class)) }
        ensures carried { OnOk result
            ((class : Class) → IsAfter self.old self.new (ask.Store id bytes.now class)) }
        ensures same { IfOk result (λ answer. is_done answer ≡ false → self.new ≡ self.old) }
        ensures err { OnErr result (self.new ≡ self.old) }
    {
        if self.kept.contains_key(&id) {
            return Ok(Response::Refused(StoreFault::Exists));
        }
        let share = Body::new(alloc, bytes)?;
        self.kept.insert(id, Kept::Share(share))?;
        Ok(Response::Done)
    }

    /// Puts bytes to the end of a share.
    fn append(&mut self, id: FragId, place: u32, bytes: &[u8]) -> Mem<Response>
        requires { place + length bytes.now < 2 ^ 32 }
        ensures answer { IfOk result
            (λ answer. answer ≡ answer_of self.old (ask.Append id place bytes.now)) }
        ensures carried { OnOk result (IsAfter self.old self.new (ask.Append id place bytes.now)) }
        ensures same { IfOk result (λ answer. is_done answer ≡ false → self.new ≡ self.old) }
        ensures err { OnErr result (self.new ≡ self.old) }
    {
        let Some(kept) = self.kept.get_mut(&id) else {
            return Ok(Response::Refused(StoreFault::NoFragment));
        };
        kept.append(place, bytes)
    }

    /// Stores a parity, or replaces what stands under its name.
    fn put_parity(&mut self, alloc: Global, id: FragId, lengths: &LenList, bytes: &[u8]) -> Mem<()>
        requires { length bytes.now < 2 ^ 32 }
        ensures carried { OnOk result
            ((class : Class) → IsAfter self.old self.new (ask.Parity id lengths.now bytes.now class)) }
        ensures err { OnErr result (self.new ≡ self.old) }
    {
        let parity = Kept::Parity {
            lengths: lengths.copy(alloc)?,
            bytes: Body::new(alloc, bytes)?,
        };
        self.kept.insert(id, parity)?;
        Ok(())
    }

    /// A range of what stands under a name.
    fn retrieve(&self, alloc: Global, id: FragId, place: u32, len: u32) -> Mem<Response>
        ensures { IfOk result (λ answer. answer ≡ found (stands_in self.now id) place len) }
    {
        let Some(kept) = self.kept.get(&id) else {
            return Ok(Response::Refused(StoreFault::NoFragment));
        };
        kept.retrieve(alloc, place, len)
    }

    /// Removes what stands under a name.
    fn delete(&mut self, id: FragId) -> Response
        ensures answer { result ≡ answer_of self.old (ask.Delete id) }
        ensures carried { IsAfter self.old self.new (ask.Delete id) }
        ensures same { is_done result ≡ false → self.new ≡ self.old }
    {
        if self.kept.remove(&id).is_none() {
            return Response::Refused(StoreFault::NoFragment);
        }
        Response::Done
    }

    /// The least names above another.
    fn names_above(&self, alloc: Global, after: Option<FragId>) -> Mem<FragList>
        ensures { IfOk result (λ names. names ≡ take most_names (names_above after self.now)) }
    {
        names_above(alloc, &self.kept, after)
    }

    /// Carries out a request. Where memory runs out nothing has changed.
    pub(crate) fn serve(&mut self, alloc: Global, request: &Request) -> Mem<Response>
        requires { EndsInRange request.now }
        ensures answer { IfOk result (λ answer. answer ≡ answer_of self.old request.now) }
        ensures carried { OnOk result (IsAfter self.old self.new request.now) }
        ensures same { IfOk result (λ answer. is_done answer ≡ false → self.new ≡ self.old) }
        ensures err { OnErr result (self.new ≡ self.old) }
        ensures order { IsInOrder self.old }
    {
        // Names a field, so that what holds of the server's fields is known here.
        let _ = &self.kept;
        match request {
            Request::Store { id, bytes, .. } => self.store(alloc, *id, bytes.slice()),
            Request::Append { id, place, bytes } => self.append(*id, *place, bytes.slice()),
            Request::Parity {
                id,
                lengths,
                bytes,
                ..
            } => {
                self.put_parity(alloc, *id, lengths, bytes.slice())?;
                Ok(Response::Done)
            }
            Request::Retrieve { id, place, len } => self.retrieve(alloc, *id, *place, *len),
            Request::Delete { id } => Ok(self.delete(*id)),
            Request::Identify { after } => Ok(Response::Ids(self.names_above(alloc, *after)?)),
            Request::Fence { .. } => Ok(Response::Done),
        }
    }
}
