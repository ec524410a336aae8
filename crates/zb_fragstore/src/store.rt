ghost use Rattle.std.specs.Prelude.{◌≡◌, is_some, option_map, IfErr, OnOk, Some, None};
ghost use Rattle.zb_index.specs.Seen.{spot_of};
ghost use Rattle.zb_fragstore.specs.Seen.{free_of, size_at, size_in};
ghost use Rattle.zb_fragstore.specs.Seen.{is_share};
ghost use Rattle.zb_holding.specs.Rules.{unless_old, no_slot};

use std::marker::Model;
use zb_index::{Index, Spot};
use zb_types::{Class, FragId, Geometry, ServerId, StoreFault};

/// The fragments of one server, which stand on the platter with the server's number. In memory are only their names,
/// lengths and slots, and which slots are free.
///
/// After `Stopped` it is to be opened again.
#[derive(Drop)]
pub struct FragStore {
    pub(crate) geo: Geometry,
    pub(crate) server: ServerId,
    pub(crate) index: Index,
    pub(crate) fence: u64,
}

impl Model for FragStore {
    ghost use Rattle.zb_fragstore.specs.Seen.{SeenStore};
    ghost use Rattle.zb_fragstore.specs.Ranges.{AreInRange};

    ghost Value = { SeenStore };

    ghost view = { λ a. record { geo = a.geo; server = a.server; index = a.index; fence = a.fence } };

    ghost invariant = { λ a. AreInRange a.geo a.index };
}

impl FragStore {
    // The number of its platter.
    pub(crate) fn platter(&self) -> usize
        ensures { result ≡ self.now.server.0 }
    {
        usize::from(self.server.0)
    }

    // Whether the index of this name is one of a share.
    pub(crate) fn is_share(&self, id: FragId) -> bool
        ensures { result ≡ is_share self.now id }
    {
        u32::from(id.index) + 1 < self.geo.servers
    }

    // Where the fragment of this name stands, if there is one.
    pub(crate) fn find(&self, id: FragId) -> Option<Spot>
        ensures spot { result ≡ spot_of self.now.index id }
        ensures size { size_in self.now id ≡ option_map (size_at self.now id) result }
        ensures there { is_some (size_in self.now id) ≡ is_some result }
    {
        self.index.find(id)
    }

    // Refuses a generation below the fence.
    pub(crate) fn check_generation(&self, generation: u64) -> Result<(), StoreFault>
        ensures ok { OnOk result (unless_old self.now.fence generation None ≡ None) }
        ensures err { IfErr result (λ fault. unless_old self.now.fence generation None ≡ Some fault) }
    {
        if generation < self.fence {
            return Err(StoreFault::OldGeneration { now: self.fence });
        }
        Ok(())
    }

    // Refuses where no slot is left for this class.
    pub(crate) fn check_room(&self, class: Class) -> Result<(), StoreFault>
        ensures ok { OnOk result (no_slot (free_of self.now) class ≡ None) }
        ensures err { IfErr result (λ fault. no_slot (free_of self.now) class ≡ Some fault) }
    {
        let free = self.index.free();
        let least = match class {
            Class::Client => 5,
            Class::Cleaner => 1,
        };
        if free < least {
            return Err(StoreFault::NoSlot { free });
        }
        Ok(())
    }

    /// How many of its slots are free.
    pub fn free(&self) -> u32
        ensures { result ≡ free_of self.now }
    {
        self.index.free()
    }
}
