ghost use Rattle.std.specs.Prelude.{◌≡◌, ◌+◌, ◌-◌, ◌^◌, ◌<◌, ◌≤◌, true, false, if◌then◌else◌, is_some, option_map, IfOk, OnOk, OnErr, length, Some, None};
ghost use Rattle.std.specs.Option.{option_copied};
ghost use Rattle.zb_types.specs.declared.requests.Request.TheVariants as ask;
ghost use Rattle.zb_holding.specs.Carrying.{found, stands_after};
ghost use Rattle.zb_holding.specs.Listing.{AreLeastAbove};
ghost use Rattle.zb_holding.specs.Rules.{size_of, outline_of, unless_old, no_slot, unless_there, refusal_up_to, refusal_to_append, or_by, known_refusal, IsAnswer, IsLeft};
ghost use Rattle.zb_servers.specs.Standing.{empty_server, stands_in, holdings_of, IsInOrder};
ghost use Rattle.zb_servers.specs.Keeping.{IsPut, done_unless};
ghost use Rattle.zb_servers.specs.Serving.{EndsInRange, is_refused};

use crate::kept::Kept;
use std::alloc::Global;
use std::collections::BTreeMap;
use std::marker::Model;
use zb_holding::names_above;
use zb_types::{Class, FragId, FragList, Mem, Request, Response, StoreFault};

/// How many slots a client leaves free.
const LEFT_FREE: u32 = 4;

/// One server: fragments under their names, and the least generation that it takes.
#[derive(Drop)]
pub(crate) struct Server {
    kept: BTreeMap<FragId, Kept>,
    fence: u64,
}

impl Model for Server {
    ghost use Rattle.zb_servers.specs.Standing.{SeenServer, IsInOrder};

    ghost Value = { SeenServer };

    ghost view = { λ a. record { entries = a.kept.entries; fence = a.fence } };

    ghost invariant = { λ a. IsInOrder a.kept.entries };
}

impl Server {
    pub(crate) fn new(alloc: Global) -> Server
        ensures { result ≡ empty_server }
    {
        Server {
            kept: BTreeMap::new(alloc),
            fence: 1,
        }
    }

    /// What stands under a name.
    fn at(&self, id: FragId) -> Option<&Kept>
        ensures { option_copied result ≡ stands_in self.now.entries id }
    {
        self.kept.get(&id)
    }

    fn is_there(&self, id: FragId) -> bool
        ensures { result ≡ is_some (option_map size_of (stands_in self.now.entries id)) }
    {
        self.at(id).is_some()
    }

    /// How many of so many slots are free.
    pub(crate) fn free(&self, slots: u32) -> u32
        requires { length self.now.entries ≤ slots }
        ensures count { length self.now.entries + result ≡ slots }
        ensures order { IsInOrder self.now.entries }
    {
        slots - self.kept.len() as u32
    }

    /// The fence, where a generation is below it, and then what else refuses.
    fn unless_old(&self, generation: u64, other: Option<StoreFault>) -> Option<StoreFault>
        ensures { result ≡ unless_old self.now.fence generation other }
    {
        if generation < self.fence {
            return Some(StoreFault::OldGeneration { now: self.fence });
        }
        other
    }

    fn no_slot(&self, slots: u32, class: Class) -> Option<StoreFault>
        requires { length self.now.entries ≤ slots }
        ensures { result ≡ no_slot (slots - length self.now.entries) class }
    {
        let free = self.free(slots);
        let is_full = match class {
            Class::Client => free <= LEFT_FREE,
            Class::Cleaner => free == 0,
        };
        if is_full {
            return Some(StoreFault::NoSlot { free });
        }
        None
    }

    fn unless_there(&self, id: FragId) -> Option<StoreFault>
        ensures { result ≡ unless_there (option_map size_of (stands_in self.now.entries id)) }
    {
        if self.is_there(id) {
            return None;
        }
        Some(StoreFault::NoFragment)
    }

    fn refusal_to_store(&self, slots: u32, id: FragId, class: Class) -> Option<StoreFault>
        requires { length self.now.entries ≤ slots }
        ensures { result ≡ (if is_some (option_map size_of (stands_in self.now.entries id)) then Some StoreFault.Exists
            else no_slot (slots - length self.now.entries) class) }
    {
        if self.is_there(id) {
            return Some(StoreFault::Exists);
        }
        self.no_slot(slots, class)
    }

    /// A parity that replaces another takes any slot.
    fn refusal_of_parity(&self, slots: u32, id: FragId, class: Class) -> Option<StoreFault>
        requires { length self.now.entries ≤ slots }
        ensures { result ≡ no_slot (slots - length self.now.entries)
            (if is_some (option_map size_of (stands_in self.now.entries id)) then Class.Cleaner else class) }
    {
        if self.is_there(id) {
            return self.no_slot(slots, Class::Cleaner);
        }
        self.no_slot(slots, class)
    }

    fn refusal_up_to(&self, id: FragId, end: u64) -> Option<StoreFault>
        ensures { result ≡ refusal_up_to (option_map size_of (stands_in self.now.entries id)) end }
    {
        match self.at(id) {
            Some(kept) => kept.refusal_up_to(end),
            None => Some(StoreFault::NoFragment),
        }
    }

    /// Why a request is refused, as far as that shows without a look at bytes.
    fn refusal(&self, slots: u32, generation: u64, request: &Request) -> Option<StoreFault>
        requires { length self.now.entries ≤ slots }
        ensures { result ≡ known_refusal (outline_of (holdings_of slots self.now)) generation request.now }
    {
        match request {
            Request::Store { id, class, .. } => {
                self.unless_old(generation, self.refusal_to_store(slots, *id, *class))
            }
            Request::Append { id, .. } => self.unless_old(generation, self.unless_there(*id)),
            Request::Parity { id, class, .. } => {
                self.unless_old(generation, self.refusal_of_parity(slots, *id, *class))
            }
            Request::Retrieve { id, place, len } => {
                let end = u64::from(*place) + u64::from(*len);
                self.unless_old(generation, self.refusal_up_to(*id, end))
            }
            Request::Delete { id } => self.unless_there(*id),
            Request::Identify { .. } => None,
            Request::Fence { generation } => self.unless_old(*generation, None),
        }
    }

    /// Has this stand under a name.
    fn put(&mut self, id: FragId, kept: Kept) -> Mem<()>
        ensures put { OnOk result (IsPut self.old.entries self.new.entries id (Some kept)) }
        ensures count { OnOk result (length self.new.entries
            ≡ length self.old.entries + (if is_some (stands_in self.old.entries id) then 0 else 1)) }
        ensures fence { self.new.fence ≡ self.old.fence }
        ensures err { OnErr result (self.new ≡ self.old) }
    {
        self.kept.insert(id, kept)?;
        Ok(())
    }

    /// Puts bytes to the end of a share. Where memory runs out nothing has changed.
    fn append(&mut self, id: FragId, place: u32, bytes: &[u8]) -> Mem<Response>
        requires { place + length bytes.now < 2 ^ 32 }
        ensures answer { let stood = stands_in self.old.entries id in IfOk result (λ answer. answer
            ≡ done_unless (or_by (unless_there (option_map size_of stood)) (λ fragment. refusal_to_append fragment place bytes.now) stood)) }
        ensures put { IfOk result (λ answer. is_refused answer ≡ false → IsPut self.old.entries self.new.entries id
            (stands_after (ask.Append id place bytes.now) (stands_in self.old.entries id))) }
        ensures refused { IfOk result (λ answer. is_refused answer ≡ true → self.new ≡ self.old) }
        ensures count { length self.new.entries ≡ length self.old.entries }
        ensures fence { self.new.fence ≡ self.old.fence }
        ensures err { OnErr result (self.new ≡ self.old) }
    {
        let Some(kept) = self.kept.get_mut(&id) else {
            return Ok(Response::Refused(StoreFault::NoFragment));
        };
        kept.append(place, bytes)
    }

    /// Removes what stands under a name.
    fn delete(&mut self, id: FragId)
        ensures put { IsPut self.old.entries self.new.entries id None }
        ensures count { length self.new.entries
            + (if is_some (stands_in self.old.entries id) then 1 else 0) ≡ length self.old.entries }
        ensures fence { self.new.fence ≡ self.old.fence }
    {
        self.kept.remove(&id);
    }

    fn retrieve(&self, alloc: Global, id: FragId, place: u32, len: u32) -> Mem<Response>
        requires { refusal_up_to (option_map size_of (stands_in self.now.entries id)) (place + len) ≡ None }
        ensures { IfOk result (λ answer. answer ≡ found (stands_in self.now.entries id) place len) }
    {
        let Some(kept) = self.at(id) else {
            return Ok(Response::Refused(StoreFault::NoFragment));
        };
        kept.retrieve(alloc, place, len)
    }

    /// The least names above another.
    fn names_above(&self, alloc: Global, after: Option<FragId>) -> Mem<FragList>
        ensures { IfOk result (AreLeastAbove (λ id. is_some (stands_in self.now.entries id)) after) }
    {
        names_above(alloc, &self.kept, after)
    }

    /// Answers a request of a generation, where there are so many slots. Where memory runs out nothing has changed.
    pub(crate) fn serve(
        &mut self,
        alloc: Global,
        slots: u32,
        generation: u64,
        request: &Request,
    ) -> Mem<Response>
        requires room { length self.old.entries ≤ slots }
        requires range { EndsInRange request.now }
        ensures rules { IfOk result (IsAnswer (holdings_of slots self.old) generation request.now) }
        ensures left { IfOk result (λ answer. IsLeft (holdings_of slots self.old) request.now answer (holdings_of slots self.new)) }
        ensures refused { IfOk result (λ answer. is_refused answer ≡ true → self.new ≡ self.old) }
        ensures err { OnErr result (self.new ≡ self.old) }
        ensures count { length self.new.entries ≤ slots }
    {
        if let Some(fault) = self.refusal(slots, generation, request) {
            return Ok(Response::Refused(fault));
        }
        match request {
            Request::Store { id, bytes, .. } => {
                self.put(*id, Kept::share(alloc, bytes.slice())?)?;
                Ok(Response::Done)
            }
            Request::Append { id, place, bytes } => self.append(*id, *place, bytes.slice()),
            Request::Parity {
                id,
                lengths,
                bytes,
                ..
            } => {
                self.put(*id, Kept::parity(alloc, lengths, bytes.slice())?)?;
                Ok(Response::Done)
            }
            Request::Retrieve { id, place, len } => self.retrieve(alloc, *id, *place, *len),
            Request::Delete { id } => {
                self.delete(*id);
                Ok(Response::Done)
            }
            Request::Identify { after } => Ok(Response::Ids(self.names_above(alloc, *after)?)),
            Request::Fence { generation } => {
                self.fence = *generation;
                Ok(Response::Done)
            }
        }
    }
}
