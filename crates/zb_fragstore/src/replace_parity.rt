ghost use Rattle.std.specs.Prelude.{◌≡◌, ◌≢◌, ◌≤◌, ◌<◌, ◌+◌, ◌-◌, ℕ, Some, None, drop, length, true, false, if◌then◌else◌, IsTrue, IfOk, IfErr, OnOk, Err};
ghost use Rattle.zb_outside.specs.Counts.{Touches};
ghost use Rattle.zb_outside.specs.Runs.{SparesOthers};
ghost use Rattle.zb_types.specs.declared.requests.Request.TheVariants as ask;
ghost use Rattle.zb_slots.specs.Area.{IsArea, lengths_in};
ghost use Rattle.zb_fragstore.specs.Seen.{free_of, IsStoreOf, is_there, ChangesLength, TakesLeastSlot};
ghost use Rattle.zb_fragstore.specs.Answers.{IsUnforeseen, is_stopped};
ghost use Rattle.zb_fragstore.specs.Seen.{known};
ghost use Rattle.zb_holding.specs.Rules.{known_refusal};
ghost use Rattle.zb_fragstore.specs.Changing.{IsOpen, CarriesOut};

use crate::faults::or_stopped;
use crate::store::FragStore;
use std::alloc::Global;
use zb_outside::Bay;
use zb_slot_map::{ParitySlot, replace_parity_at, store_parity_at};
use zb_slots::parity_area;
use zb_types::{Class, FragId, StoreFault};

// The area of a parity, which is written at once.
fn spell_area(alloc: Global, lengths: &[u32], bytes: &[u8]) -> Result<Vec<u8>, StoreFault>
    requires { length lengths.now ≤ 16 }
    ensures area { IfOk result (λ area. IsArea lengths.now bytes.now area.items) }
    ensures fault { IfErr result (λ fault. fault ≡ StoreFault.NoMemory) }
{
    match parity_area(alloc, lengths, bytes) {
        Ok(area) => Ok(area),
        Err(_) => Err(StoreFault::NoMemory),
    }
}

impl FragStore {
    // Stores the first parity of a name: its area, in a free slot.
    fn first_parity<B: Bay>(
        &mut self,
        bay: &mut B,
        id: FragId,
        area: &[u8],
    ) -> Result<(), StoreFault>
        requires parity { id.index + 1 ≡ self.old.geo.servers }
        requires area { 64 ≤ length area.now }
        requires room { length area.now ≤ 64 + self.old.geo.fragment }
        requires absent { is_there self.old id ≡ false }
        requires slot { 0 < free_of self.old }
        ensures answer { IfErr result IsUnforeseen }
        ensures same { IfErr result (λ fault. fault ≢ StoreFault.Stopped → self.new ≡ self.old) }
        ensures still { IfErr result (λ fault. fault ≢ StoreFault.Stopped → bay.new ≡ bay.old) }
        ensures stored { OnOk result (ChangesLength id (Some (length area.now - 64)) self.old self.new) }
        ensures least { OnOk result (TakesLeastSlot id self.old self.new) }
        ensures free { OnOk result (free_of self.new + 1 ≡ free_of self.old) }
        ensures told { IsTrue B.tells → IsOpen self.old (B.meaning bay.old).now → (class : Class)
            → CarriesOut (ask.Parity id (lengths_in (self.old.geo.servers - 1) area.now) (drop 64 area.now) class) self.old self.new result (B.meaning bay.old) (B.meaning bay.new) }
        ensures others { IsTrue B.tells → SparesOthers self.old.server.0 (B.meaning bay.old) (B.meaning bay.new) }
        ensures system { IsStoreOf self.old.geo self.old.server self.new }
        ensures touches { Touches B.counts B.follows self.old.server.0 4 (is_stopped result) bay.old bay.new }
    {
        let len = (area.len() - 64) as u32;
        let slot = self.take_slot(id, len)?;
        or_stopped(store_parity_at(bay, &self.geo, self.platter(), slot, id, area))
    }

    // Puts a parity's area into a free slot, and frees the slot of the former one.
    fn next_parity<B: Bay>(
        &mut self,
        bay: &mut B,
        id: FragId,
        area: &[u8],
    ) -> Result<(), StoreFault>
        requires parity { id.index + 1 ≡ self.old.geo.servers }
        requires area { 64 ≤ length area.now }
        requires room { length area.now ≤ 64 + self.old.geo.fragment }
        requires there { is_there self.old id ≡ true }
        requires slot { 0 < free_of self.old }
        ensures answer { IfErr result (λ fault. fault ≡ StoreFault.Stopped) }
        ensures same { IfErr result (λ fault. fault ≢ StoreFault.Stopped → self.new ≡ self.old) }
        ensures still { IfErr result (λ fault. fault ≢ StoreFault.Stopped → bay.new ≡ bay.old) }
        ensures stored { OnOk result (ChangesLength id (Some (length area.now - 64)) self.old self.new) }
        ensures least { OnOk result (TakesLeastSlot id self.old self.new) }
        ensures free { OnOk result (free_of self.new ≡ free_of self.old) }
        ensures told { IsTrue B.tells → IsOpen self.old (B.meaning bay.old).now → (class : Class)
            → CarriesOut (ask.Parity id (lengths_in (self.old.geo.servers - 1) area.now) (drop 64 area.now) class) self.old self.new result (B.meaning bay.old) (B.meaning bay.new) }
        ensures others { IsTrue B.tells → SparesOthers self.old.server.0 (B.meaning bay.old) (B.meaning bay.new) }
        ensures system { IsStoreOf self.old.geo self.old.server self.new }
        ensures touches { Touches B.counts B.follows self.old.server.0 7 (is_stopped result) bay.old bay.new }
    {
        let len = (area.len() - 64) as u32;
        let moved = self.move_slot(id, len);
        let former = ParitySlot {
            slot: moved.former.slot,
            turn: moved.former.turn,
        };
        or_stopped(replace_parity_at(bay, &self.geo, self.platter(), former, moved.slot, id, area))
    }

    /// Stores the parity of a stripe, or replaces it: the length that it covers of each share, and its bytes. At each
    /// moment the map is as before or has this parity.
    ///
    /// It is refused, in this order, for a generation below the fence, and where no slot is free: the first parity of a
    /// name leaves a client's four slots as a store does, one that replaces another takes any.
    pub fn replace_parity<B: Bay>(
        &mut self,
        alloc: Global,
        bay: &mut B,
        id: FragId,
        lengths: &[u32],
        bytes: &[u8],
        class: Class,
        generation: u64,
    ) -> Result<(), StoreFault>
        requires parity { id.index + 1 ≡ self.old.geo.servers }
        requires lengths { length lengths.now + 1 ≡ self.old.geo.servers }
        requires room { length bytes.now ≤ self.old.geo.fragment }
        ensures refused { (fault : StoreFault)
            → known_refusal (known self.old) generation (ask.Parity id lengths.now bytes.now class) ≡ Some fault → result ≡ Err fault }
        ensures taken { known_refusal (known self.old) generation (ask.Parity id lengths.now bytes.now class) ≡ None → IfErr result IsUnforeseen }
        ensures same { IfErr result (λ fault. fault ≢ StoreFault.Stopped → self.new ≡ self.old) }
        ensures still { IfErr result (λ fault. fault ≢ StoreFault.Stopped → bay.new ≡ bay.old) }
        ensures stored { OnOk result (ChangesLength id (Some (length bytes.now)) self.old self.new) }
        ensures least { OnOk result (TakesLeastSlot id self.old self.new) }
        ensures free { OnOk result (free_of self.new + (if is_there self.old id then 0 else 1) ≡ free_of self.old) }
        ensures told { IsTrue B.tells → IsOpen self.old (B.meaning bay.old).now
            → CarriesOut (ask.Parity id lengths.now bytes.now class) self.old self.new result (B.meaning bay.old) (B.meaning bay.new) }
        ensures others { IsTrue B.tells → SparesOthers self.old.server.0 (B.meaning bay.old) (B.meaning bay.new) }
        ensures system { IsStoreOf self.old.geo self.old.server self.new }
        ensures touches { Touches B.counts B.follows self.old.server.0 7 (is_stopped result) bay.old bay.new }
    {
        self.check_generation(generation)?;
        let is_there = self.find(id).is_some();
        self.check_room(if is_there { Class::Cleaner } else { class })?;
        let area = spell_area(alloc, lengths, bytes)?;
        if is_there {
            self.next_parity(bay, id, &area)
        } else {
            self.first_parity(bay, id, &area)
        }
    }
}
