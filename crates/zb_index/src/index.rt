ghost use Rattle.std.specs.Prelude.{◌≡◌, ℕ, ◌+◌, ◌<◌, ◌≤◌, if◌then◌else◌, [], length, Option, None, Some, IsSome, IfOk, IfNone, IfSome, OnErr, OnOk};
ghost use Rattle.std.specs.Option.{option_map};
ghost use Rattle.zb_cell.specs.Cell.{following};
ghost use Rattle.zb_slots.specs.Slots.{Slot, free_slot};
ghost use Rattle.zb_index.specs.Free.{IsTaken, IsGiven, IsExchanged};
ghost use Rattle.zb_types.specs.declared.ids.FragId.{FragId};
ghost use Rattle.zb_holding.specs.Carrying.{same_frag};
ghost use Rattle.zb_holding.specs.Listing.{AreLeastAbove};
ghost use Rattle.zb_index.specs.Seen.{IsInOrder, spot_in, spot_of, is_held};
ghost use Rattle.zb_index.specs.Indexed.{IsIndexOf};
ghost use Rattle.zb_index.specs.Changes.{IsPut, first_spot, lengthened, next_spot, FollowsFill, FollowsFree, FollowsMove};

use crate::free::FreeSlots;
use crate::spot::{Renewed, Spot};
use std::alloc::Global;
use std::collections::BTreeMap;
use std::marker::Model;
use zb_cell::following;
use zb_holding::names_above;
use zb_types::{FragId, FragList, Mem};

/// Sets the spot of a name that is held.
fn set_spot(spots: &mut BTreeMap<FragId, Spot>, id: FragId, spot: Spot)
    requires held { IsSome (spot_in spots.old.entries id) }
    ensures put { (q : FragId) → spot_in spots.new.entries q
        ≡ (if same_frag id q then Some spot else spot_in spots.old.entries q) }
    ensures order { IsInOrder spots.new.entries }
    ensures count { length spots.new.entries ≡ length spots.old.entries }
{
    if let Some(held) = spots.get_mut(&id) {
        *held = spot;
    }
}

/// Where each fragment of a server stands, by its name, and which slots are free.
#[derive(Drop)]
pub struct Index {
    pub(crate) spots: BTreeMap<FragId, Spot>,
    pub(crate) free: FreeSlots,
}

impl Model for Index {
    ghost use Rattle.std.specs.Prelude.{◌+◌, ◌≤◌, length};
    ghost use Rattle.zb_index.specs.Seen.{SeenIndex, IsInOrder};

    ghost Value = { SeenIndex };

    ghost view = { λ a. record { entries = a.spots.entries; free = a.free.slots } };

    ghost invariant = { λ a. IsInOrder a.spots.entries
        × (length a.spots.entries + length a.free.slots ≤ a.free.room) };
}

impl Index {
    /// The index of slots that are all free, for which it has room.
    pub fn empty(alloc: Global, slots: u32) -> Mem<Index>
        ensures none { IfOk result (λ index. index.entries ≡ []) }
        ensures count { IfOk result (λ index. length index.free ≡ slots) }
        ensures index { IfOk result (λ index. (now : ℕ → Slot) → ((j : ℕ) → j < slots → now j ≡ free_slot)
            → IsIndexOf index slots now) }
    {
        Ok(Index {
            spots: BTreeMap::new(alloc),
            free: FreeSlots::all(alloc, slots)?,
        })
    }

    /// Where a fragment stands. `None` where its name isn't held.
    pub fn find(&self, id: FragId) -> Option<Spot>
        ensures { result ≡ spot_of self.now id }
    {
        self.spots.get(&id).copied()
    }

    /// How many slots are free.
    pub fn free(&self) -> u32
        ensures { result ≡ length self.now.free }
    {
        self.free.len()
    }

    /// Takes the least free slot for a new share or parity of `len` bytes, with turn 0. `None` where no slot is
    /// free; where memory runs out nothing has changed.
    pub fn add(&mut self, id: FragId, len: u32) -> Mem<Option<u32>>
        requires { spot_of self.old id ≡ None }
        ensures none { IfOk result (λ taken. IfNone taken (self.old.free ≡ [])) }
        ensures same { IfOk result (λ taken. IfNone taken (self.new ≡ self.old)) }
        ensures taken { IfOk result (λ taken. IfSome taken (λ slot. IsTaken self.old.free slot self.new.free)) }
        ensures put { IfOk result (λ taken. IfSome taken
            (λ slot. IsPut self.old self.new id (Some (first_spot slot len)))) }
        ensures index { IfOk result (λ taken. IfSome taken
            (λ slot. FollowsFill self.old self.new slot id 0 len)) }
        ensures err { OnErr result (self.new ≡ self.old) }
    {
        let Some(slot) = self.free.least() else {
            return Ok(None);
        };
        let spot = Spot { slot, turn: 0, len };
        self.spots.insert(id, spot)?;
        Ok(self.free.take_least())
    }

    /// Sets the length of a fragment whose name is held.
    pub fn grow(&mut self, id: FragId, len: u32)
        requires { IsSome (spot_of self.old id) }
        ensures put { IsPut self.old self.new id (option_map (lengthened len) (spot_of self.old id)) }
        ensures free { self.new.free ≡ self.old.free }
        ensures index { IfSome (spot_of self.old id)
            (λ spot. FollowsFill self.old self.new spot.slot id spot.turn len) }
    {
        if let Some(spot) = self.find(id) {
            set_spot(&mut self.spots, id, Spot { len, ..spot });
        }
    }

    /// Takes the least free slot for the next fragment of a name that is held, of `len` bytes and with the turn
    /// that follows, and frees the former's slot. `None` where no slot is free: then nothing has changed. Takes no
    /// memory.
    pub fn renew(&mut self, id: FragId, len: u32) -> Option<Renewed>
        requires { IsSome (spot_of self.old id) }
        ensures none { IfNone result (self.old.free ≡ []) }
        ensures same { IfNone result (self.new ≡ self.old) }
        ensures former { IfSome result (λ renewed. spot_of self.old id ≡ Some renewed.former) }
        ensures taken { IfSome result
            (λ renewed. IsExchanged self.old.free renewed.slot renewed.former.slot self.new.free) }
        ensures put { IfSome result
            (λ renewed. IsPut self.old self.new id (Some (next_spot renewed.slot len renewed.former))) }
        ensures index { IfSome result (λ renewed. FollowsMove self.old self.new
            renewed.former.slot renewed.slot id (following renewed.former.turn) len) }
    {
        let former = self.find(id)?;
        let slot = self.free.take_least()?;
        let turn = following(former.turn);
        set_spot(&mut self.spots, id, Spot { slot, turn, len });
        self.free.give(former.slot);
        Some(Renewed { former, slot })
    }

    /// Removes a name and frees its slot, which the answer tells. `None` where the name isn't held. Takes no
    /// memory.
    pub fn remove(&mut self, id: FragId) -> Option<Spot>
        ensures former { result ≡ spot_of self.old id }
        ensures same { IfNone result (self.new ≡ self.old) }
        ensures given { IfSome result (λ spot. IsGiven self.old.free spot.slot self.new.free) }
        ensures put { IfSome result (λ _. IsPut self.old self.new id None) }
        ensures index { IfSome result (λ spot. FollowsFree self.old self.new spot.slot) }
    {
        let spot = self.spots.remove(&id)?;
        self.free.give(spot.slot);
        Some(spot)
    }

    /// The least names above another, or of all names, in order: 256 at most. Costs what it lists and a
    /// logarithm of the names held.
    pub fn names_above(&self, alloc: Global, after: Option<FragId>) -> Mem<FragList>
        ensures { IfOk result (AreLeastAbove (is_held self.now) after) }
    {
        names_above(alloc, &self.spots, after)
    }
}
