ghost use Rattle.std.specs.Prelude.{◌≡◌, ◌≤◌, ◌<◌, false, true, IsSome, Some, IfOk, IfErr, IfNone, IfSome, OnErr};
ghost use Rattle.zb_index.specs.declared.spot.Spot.{Spot as SeenSpot};
ghost use Rattle.zb_index.specs.Seen.{spot_of};
ghost use Rattle.zb_fragstore.specs.Seen.{free_of, is_there};
ghost use Rattle.zb_fragstore.specs.Taking.{TakesSlot, GivesSlot, Lengthens, MovesSlot};

use crate::store::FragStore;
use zb_index::{Renewed, Spot};
use zb_types::{FragId, StoreFault};

// Of all calls these alone change what is in memory of slots.
impl FragStore {
    // Takes the least free slot for a new fragment of `len` bytes.
    pub(crate) fn take_slot(&mut self, id: FragId, len: u32) -> Result<u32, StoreFault>
        requires absent { is_there self.old id ≡ false }
        requires slot { 0 < free_of self.old }
        requires room { len ≤ self.old.geo.fragment }
        ensures taken { IfOk result (λ slot. TakesSlot id slot len self.old self.new) }
        ensures rest { self.new ≡ record self.old { index = self.new.index } }
        ensures answer { IfErr result (λ fault. fault ≡ StoreFault.NoMemory) }
        ensures same { OnErr result (self.new ≡ self.old) }
    {
        match self.index.add(id, len) {
            Ok(Some(slot)) => Ok(slot),
            Ok(None) => Err(StoreFault::NoSlot { free: 0 }),
            Err(_) => Err(StoreFault::NoMemory),
        }
    }

    // Gives the slot of a fragment back, which the answer tells: None where there is no such fragment.
    pub(crate) fn give_slot(&mut self, id: FragId) -> Option<u32>
        ensures none { IfNone result (is_there self.old id ≡ false) }
        ensures same { IfNone result (self.new ≡ self.old) }
        ensures given { IfSome result (λ slot. GivesSlot id slot self.old self.new) }
        ensures rest { self.new ≡ record self.old { index = self.new.index } }
    {
        let spot = self.index.remove(id)?;
        Some(spot.slot)
    }

    // Sets the length of a fragment that stands at this spot.
    pub(crate) fn lengthen(&mut self, id: FragId, spot: Spot, len: u32)
        requires there { spot_of self.old.index id ≡ Some spot }
        requires room { len ≤ self.old.geo.fragment }
        ensures longer { Lengthens id spot len self.old self.new }
        ensures rest { self.new ≡ record self.old { index = self.new.index } }
    {
        self.index.grow(id, len);
    }

    // Takes the least free slot for the next fragment of a name, of `len` bytes, and gives the former's back.
    pub(crate) fn move_slot(&mut self, id: FragId, len: u32) -> Renewed
        requires there { is_there self.old id ≡ true }
        requires slot { 0 < free_of self.old }
        requires room { len ≤ self.old.geo.fragment }
        ensures moved { MovesSlot id result.former result.slot len self.old self.new }
        ensures rest { self.new ≡ record self.old { index = self.new.index } }
        ensures turn { result.former.turn < 3 }
        ensures within { result.former.slot < self.old.geo.slots }
    {
        self.index.renew(id, len).unwrap()
    }
}
