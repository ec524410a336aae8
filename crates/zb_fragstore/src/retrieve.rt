ghost use Rattle.std.specs.Prelude.{◌≡◌, ◌≤◌, ◌<◌, ◌+◌, ◌-◌, ℕ, Some, None, false, IsTrue, IfOk, IfErr, Err, ◌⊎◌};
ghost use Rattle.zb_outside.specs.Counts.{Touches};
ghost use Rattle.zb_types.specs.declared.requests.Request.TheVariants as ask;
ghost use Rattle.zb_holding.specs.Carrying.{found};
ghost use Rattle.zb_holding.specs.Rules.{parity_size, IsRange};
ghost use Rattle.zb_holding.specs.Listing.{AreLeastAbove};
ghost use Rattle.zb_index.specs.Seen.{spot_of};
ghost use Rattle.zb_fragstore.specs.Seen.{is_there, size_in};
ghost use Rattle.zb_fragstore.specs.Answers.{IsUnforeseen, is_stopped};
ghost use Rattle.zb_fragstore.specs.Reading.{or_unread, IsLookedAt};
ghost use Rattle.zb_fragstore.specs.Seen.{is_share, known};
ghost use Rattle.zb_holding.specs.Rules.{known_refusal};
ghost use Rattle.zb_fragstore.specs.Changing.{map_in, IsOpen};

use crate::store::FragStore;
use std::alloc::Global;
use zb_index::Spot;
use zb_outside::Bay;
use zb_slots::{ReadFault, parity_range, share_bytes};
use zb_types::{FragId, FragList, Mem, Response, StoreFault};

// What a store answers by what a read of a slot answered.
fn or_unread<T: Drop>(outcome: Result<T, ReadFault>) -> Result<T, StoreFault>
    ensures { result ≡ or_unread outcome }
{
    match outcome {
        Ok(value) => Ok(value),
        Err(ReadFault::NoMemory) => Err(StoreFault::NoMemory),
        Err(ReadFault::Stopped) => Err(StoreFault::Stopped),
    }
}

impl FragStore {
    /// The bytes of a share from one place to another, or all lengths of a parity with its bytes from one place to
    /// another and zeros past its end.
    ///
    /// It is refused, in this order, for a generation below the fence, for a name that isn't there, and for a share that
    /// ends before, whose length is told. No call of the platter is made then.
    pub fn retrieve<B: Bay>(
        &mut self,
        alloc: Global,
        bay: &mut B,
        id: FragId,
        place: u32,
        len: u32,
        generation: u64,
    ) -> Result<Response, StoreFault>
        requires room { place + len ≤ self.old.geo.fragment }
        ensures refused { (fault : StoreFault)
            → known_refusal (known self.old) generation (ask.Retrieve id place len) ≡ Some fault → result ≡ Err fault }
        ensures still { (fault : StoreFault)
            → known_refusal (known self.old) generation (ask.Retrieve id place len) ≡ Some fault → bay.new ≡ bay.old }
        ensures taken { known_refusal (known self.old) generation (ask.Retrieve id place len) ≡ None → IfErr result IsUnforeseen }
        ensures form { IfOk result (IsRange (size_in self.old id) len) }
        ensures same { self.new ≡ self.old }
        ensures told { IsTrue B.tells → IsLookedAt self.old.server.0 (B.meaning bay.old) (B.meaning bay.new) }
        ensures found { IsTrue B.tells → IsOpen self.old (B.meaning bay.old).now
            → IfOk result (λ response. response ≡ found (map_in self.old (B.meaning bay.old).now id) place len) }
        ensures touches { Touches B.counts B.follows self.old.server.0 0 (is_stopped result) bay.old bay.new }
    {
        self.check_generation(generation)?;
        let Some(spot) = self.find(id) else {
            return Err(StoreFault::NoFragment);
        };
        if !self.is_share(id) {
            return self.read_parity(alloc, bay, spot, place, len);
        }
        if u64::from(place) + u64::from(len) > u64::from(spot.len) {
            return Err(StoreFault::Short { len: spot.len });
        }
        let platter = self.platter();
        let bytes = or_unread(share_bytes(alloc, bay, &self.geo, platter, spot.slot, place, len))?;
        Ok(Response::Bytes(bytes))
    }

    // A range of the parity in this slot.
    fn read_parity<B: Bay>(
        &mut self,
        alloc: Global,
        bay: &mut B,
        spot: Spot,
        place: u32,
        len: u32,
    ) -> Result<Response, StoreFault>
        requires room { place + len ≤ self.old.geo.fragment }
        requires spot { spot.slot < self.old.geo.slots }
        ensures answer { IfErr result IsUnforeseen }
        ensures form { IfOk result (IsRange (Some (parity_size (self.old.geo.servers - 1) spot.len)) len) }
        ensures same { self.new ≡ self.old }
        ensures told { IsTrue B.tells → IsLookedAt self.old.server.0 (B.meaning bay.old) (B.meaning bay.new) }
        ensures found { IsTrue B.tells → IsOpen self.old (B.meaning bay.old).now
            → (id : FragId) → spot_of self.old.index id ≡ Some spot → is_share self.old id ≡ false
            → IfOk result (λ response. response ≡ found (map_in self.old (B.meaning bay.old).now id) place len) }
        ensures touches { Touches B.counts B.follows self.old.server.0 0 (is_stopped result) bay.old bay.new }
    {
        let platter = self.platter();
        let range = or_unread(parity_range(
            alloc, bay, &self.geo, platter, spot.slot, spot.len, place, len,
        ))?;
        Ok(Response::Parity {
            lengths: range.lengths,
            bytes: range.bytes,
        })
    }

    /// The least 256 names above this one, or above none, in order: all of them, where there are fewer. It looks at no
    /// generation.
    pub fn identify(&self, alloc: Global, after: Option<FragId>) -> Mem<FragList>
        ensures { IfOk result (AreLeastAbove (is_there self.now) after) }
    {
        self.index.names_above(alloc, after)
    }
}
