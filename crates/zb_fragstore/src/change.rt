ghost use Rattle.std.specs.Prelude.{◌≡◌, ◌≢◌, ◌≤◌, ◌<◌, ◌+◌, ℕ, Some, None, length, IsTrue, IfErr, OnOk, Err};
ghost use Rattle.zb_outside.specs.Counts.{Touches};
ghost use Rattle.zb_outside.specs.Runs.{SparesOthers};
ghost use Rattle.zb_types.specs.declared.requests.Request.TheVariants as ask;
ghost use Rattle.zb_fragstore.specs.Seen.{free_of, IsStoreOf, ChangesLength, TakesLeastSlot};
ghost use Rattle.zb_fragstore.specs.Answers.{IsUnforeseen, is_stopped};
ghost use Rattle.zb_fragstore.specs.Seen.{known};
ghost use Rattle.zb_holding.specs.Rules.{known_refusal};
ghost use Rattle.zb_fragstore.specs.Changing.{IsOpen, CarriesOut};

use crate::faults::or_stopped;
use crate::store::FragStore;
use std::alloc::Global;
use zb_outside::Bay;
use zb_slot_map::{fence_at, free_at, store_at};
use zb_types::{Class, FragId, StoreFault};

impl FragStore {
    /// Stores a share under a name that is free, in the least free slot. At each moment the map is as before or has the
    /// share.
    ///
    /// It is refused, in this order, for a generation below the fence, for a name that is there, and where a client would
    /// leave fewer than four slots free, or the cleaner finds none.
    pub fn store<B: Bay>(
        &mut self,
        _alloc: Global,
        bay: &mut B,
        id: FragId,
        bytes: &[u8],
        class: Class,
        generation: u64,
    ) -> Result<(), StoreFault>
        requires share { id.index + 1 < self.old.geo.servers }
        requires room { length bytes.now ≤ self.old.geo.fragment }
        ensures refused { (fault : StoreFault)
            → known_refusal (known self.old) generation (ask.Store id bytes.now class) ≡ Some fault → result ≡ Err fault }
        ensures taken { known_refusal (known self.old) generation (ask.Store id bytes.now class) ≡ None → IfErr result IsUnforeseen }
        ensures same { IfErr result (λ fault. fault ≢ StoreFault.Stopped → self.new ≡ self.old) }
        ensures still { IfErr result (λ fault. fault ≢ StoreFault.Stopped → bay.new ≡ bay.old) }
        ensures stored { OnOk result (ChangesLength id (Some (length bytes.now)) self.old self.new) }
        ensures free { OnOk result (free_of self.new + 1 ≡ free_of self.old) }
        ensures least { OnOk result (TakesLeastSlot id self.old self.new) }
        ensures told { IsTrue B.tells → IsOpen self.old (B.meaning bay.old).now
            → CarriesOut (ask.Store id bytes.now class) self.old self.new result (B.meaning bay.old) (B.meaning bay.new) }
        ensures others { IsTrue B.tells → SparesOthers self.old.server.0 (B.meaning bay.old) (B.meaning bay.new) }
        ensures system { IsStoreOf self.old.geo self.old.server self.new }
        ensures touches { Touches B.counts B.follows self.old.server.0 4 (is_stopped result) bay.old bay.new }
    {
        self.check_generation(generation)?;
        if self.find(id).is_some() {
            return Err(StoreFault::Exists);
        }
        self.check_room(class)?;
        let slot = self.take_slot(id, bytes.len() as u32)?;
        or_stopped(store_at(bay, &self.geo, self.platter(), slot, id, bytes))
    }

    /// Deletes a fragment. At each moment the map is as before or lacks its name. It looks at no generation.
    ///
    /// `NoFragment` comes exactly where no fragment has this name. It takes no memory.
    pub fn delete<B: Bay>(&mut self, bay: &mut B, id: FragId) -> Result<(), StoreFault>
        ensures refused { (fault : StoreFault) → known_refusal (known self.old) 0 (ask.Delete id) ≡ Some fault → result ≡ Err fault }
        ensures taken { known_refusal (known self.old) 0 (ask.Delete id) ≡ None → IfErr result (λ fault. fault ≡ StoreFault.Stopped) }
        ensures same { IfErr result (λ fault. fault ≢ StoreFault.Stopped → self.new ≡ self.old) }
        ensures still { IfErr result (λ fault. fault ≢ StoreFault.Stopped → bay.new ≡ bay.old) }
        ensures deleted { OnOk result (ChangesLength id None self.old self.new) }
        ensures free { OnOk result (free_of self.new ≡ free_of self.old + 1) }
        ensures told { IsTrue B.tells → IsOpen self.old (B.meaning bay.old).now
            → CarriesOut (ask.Delete id) self.old self.new result (B.meaning bay.old) (B.meaning bay.new) }
        ensures others { IsTrue B.tells → SparesOthers self.old.server.0 (B.meaning bay.old) (B.meaning bay.new) }
        ensures system { IsStoreOf self.old.geo self.old.server self.new }
        ensures touches { Touches B.counts B.follows self.old.server.0 3 (is_stopped result) bay.old bay.new }
    {
        let Some(slot) = self.give_slot(id) else {
            return Err(StoreFault::NoFragment);
        };
        or_stopped(free_at(bay, &self.geo, self.platter(), slot))
    }

    /// Raises the fence to this generation. One that stands already is not written again.
    ///
    /// `OldGeneration` comes exactly where it is above that already. It takes no memory.
    pub fn fence<B: Bay>(&mut self, bay: &mut B, generation: u64) -> Result<(), StoreFault>
        ensures refused { (fault : StoreFault) → known_refusal (known self.old) 0 (ask.Fence generation) ≡ Some fault → result ≡ Err fault }
        ensures taken { known_refusal (known self.old) 0 (ask.Fence generation) ≡ None → IfErr result (λ fault. fault ≡ StoreFault.Stopped) }
        ensures same { IfErr result (λ fault. fault ≢ StoreFault.Stopped → self.new ≡ self.old) }
        ensures still { IfErr result (λ fault. fault ≢ StoreFault.Stopped → bay.new ≡ bay.old) }
        ensures raised { OnOk result (self.new ≡ record self.old { fence = generation }) }
        ensures kept { generation ≡ self.old.fence → bay.new ≡ bay.old }
        ensures told { IsTrue B.tells → IsOpen self.old (B.meaning bay.old).now
            → CarriesOut (ask.Fence generation) self.old self.new result (B.meaning bay.old) (B.meaning bay.new) }
        ensures others { IsTrue B.tells → SparesOthers self.old.server.0 (B.meaning bay.old) (B.meaning bay.new) }
        ensures system { IsStoreOf self.old.geo self.old.server self.new }
        ensures touches { Touches B.counts B.follows self.old.server.0 3 (is_stopped result) bay.old bay.new }
    {
        self.check_generation(generation)?;
        if generation == self.fence {
            return Ok(());
        }
        self.fence = generation;
        or_stopped(fence_at(bay, &self.geo, self.platter(), self.server, generation))
    }
}
