ghost use Rattle.std.specs.Prelude.{◌≡◌, ◌≢◌, ◌⊎◌, ◌≤◌, ◌+◌, ℕ, Some, None, length, true, IsTrue, IfErr, OnOk, Err};
ghost use Rattle.zb_outside.specs.Counts.{Touches};
ghost use Rattle.zb_outside.specs.Runs.{SparesOthers};
ghost use Rattle.zb_types.specs.declared.requests.Request.TheVariants as ask;
ghost use Rattle.zb_holding.specs.Fragments.{Fragment};
ghost use Rattle.zb_index.specs.Seen.{spot_of};
ghost use Rattle.zb_fragstore.specs.Seen.{free_of, IsStoreOf, ChangesLength};
ghost use Rattle.zb_fragstore.specs.Seen.{is_share, known, size_in};
ghost use Rattle.zb_holding.specs.Rules.{IsMisplaced};
ghost use Rattle.zb_holding.specs.Rules.{known_refusal};
ghost use Rattle.zb_fragstore.specs.Answers.{is_stopped};
ghost use Rattle.zb_fragstore.specs.Changing.{map_in, IsOpen, CarriesOut};
ghost use Rattle.zb_holding.specs.Rules.{refusal_to_append};
ghost use Rattle.zb_fragstore.specs.Appending.{IsAnswered, HasGrown};
ghost use Rattle.zb_fragstore.specs.Reading.{IsLookedAt};

use crate::faults::or_stopped;
use crate::store::FragStore;
use zb_index::Spot;
use zb_outside::Bay;
use zb_slot_map::append_at;
use zb_slots::stands_at;
use zb_types::{FragId, StoreFault};

impl FragStore {
    // Puts bytes behind those of the share that stands at this spot.
    fn put_behind<B: Bay>(
        &mut self,
        bay: &mut B,
        id: FragId,
        spot: Spot,
        bytes: &[u8],
    ) -> Result<(), StoreFault>
        requires there { spot_of self.old.index id ≡ Some spot }
        requires share { is_share self.old id ≡ true }
        requires room { spot.len + length bytes.now ≤ self.old.geo.fragment }
        ensures answer { IfErr result (λ fault. fault ≡ StoreFault.Stopped) }
        ensures grown { OnOk result (ChangesLength id (Some (spot.len + length bytes.now)) self.old self.new) }
        ensures free { OnOk result (free_of self.new ≡ free_of self.old) }
        ensures told { IsTrue B.tells → IsOpen self.old (B.meaning bay.old).now
            → CarriesOut (ask.Append id spot.len bytes.now) self.old self.new result (B.meaning bay.old) (B.meaning bay.new) }
        ensures others { IsTrue B.tells → SparesOthers self.old.server.0 (B.meaning bay.old) (B.meaning bay.new) }
        ensures system { IsStoreOf self.old.geo self.old.server self.new }
        ensures touches { Touches B.counts B.follows self.old.server.0 4 (is_stopped result) bay.old bay.new }
    {
        self.lengthen(id, spot, spot.len + bytes.len() as u32);
        or_stopped(append_at(
            bay,
            &self.geo,
            self.platter(),
            spot.slot,
            id,
            spot.len,
            bytes,
        ))
    }

    // Puts bytes behind those of the fragment that stands at this spot, unless they stand there already.
    fn append_at_spot<B: Bay>(
        &mut self,
        bay: &mut B,
        id: FragId,
        spot: Spot,
        place: u32,
        bytes: &[u8],
    ) -> Result<(), StoreFault>
        requires there { spot_of self.old.index id ≡ Some spot }
        requires room { place + length bytes.now ≤ self.old.geo.fragment }
        ensures taken { IfErr result (λ fault. (fault ≡ StoreFault.Stopped) ⊎ IsMisplaced (size_in self.old id) place fault) }
        ensures answer { IsTrue B.tells → IsOpen self.old (B.meaning bay.old).now
            → (fragment : Fragment) → map_in self.old (B.meaning bay.old).now id ≡ Some fragment
            → IsAnswered (refusal_to_append fragment place bytes.now) result }
        ensures looked { IsTrue B.tells → IsOpen self.old (B.meaning bay.old).now
            → (fragment : Fragment) → map_in self.old (B.meaning bay.old).now id ≡ Some fragment
            → (fault : StoreFault) → refusal_to_append fragment place bytes.now ≡ Some fault
            → IsLookedAt self.old.server.0 (B.meaning bay.old) (B.meaning bay.new) }
        ensures same { IfErr result (λ fault. fault ≢ StoreFault.Stopped → self.new ≡ self.old) }
        ensures grown { OnOk result (HasGrown id place (length bytes.now) self.old self.new) }
        ensures free { OnOk result (free_of self.new ≡ free_of self.old) }
        ensures told { IsTrue B.tells → IsOpen self.old (B.meaning bay.old).now
            → CarriesOut (ask.Append id place bytes.now) self.old self.new result (B.meaning bay.old) (B.meaning bay.new) }
        ensures others { IsTrue B.tells → SparesOthers self.old.server.0 (B.meaning bay.old) (B.meaning bay.new) }
        ensures system { IsStoreOf self.old.geo self.old.server self.new }
        ensures touches { Touches B.counts B.follows self.old.server.0 4 (is_stopped result) bay.old bay.new }
    {
        let stands = stands_at(
            bay,
            &self.geo,
            self.platter(),
            spot.slot,
            spot.len,
            place,
            bytes,
        );
        if or_stopped(stands)? {
            return Ok(());
        }
        if place != spot.len || !self.is_share(id) {
            return Err(StoreFault::Offset { len: spot.len });
        }
        self.put_behind(bay, id, spot, bytes)
    }

    /// Puts bytes behind those of a share. At each moment the map is as before or has the longer share. Where these bytes
    /// stand at that place already, nothing changes.
    ///
    /// It is refused, in this order, for a generation below the fence, for a name that isn't there, and for a place that
    /// isn't the end of a share, which is told. Only for the last of these is the platter looked at. It takes no memory.
    pub fn append<B: Bay>(
        &mut self,
        bay: &mut B,
        id: FragId,
        place: u32,
        bytes: &[u8],
        generation: u64,
    ) -> Result<(), StoreFault>
        requires room { place + length bytes.now ≤ self.old.geo.fragment }
        ensures refused { (fault : StoreFault)
            → known_refusal (known self.old) generation (ask.Append id place bytes.now) ≡ Some fault → result ≡ Err fault }
        ensures still { (fault : StoreFault)
            → known_refusal (known self.old) generation (ask.Append id place bytes.now) ≡ Some fault → bay.new ≡ bay.old }
        ensures taken { known_refusal (known self.old) generation (ask.Append id place bytes.now) ≡ None
            → IfErr result (λ fault. (fault ≡ StoreFault.Stopped) ⊎ IsMisplaced (size_in self.old id) place fault) }
        ensures answer { IsTrue B.tells → IsOpen self.old (B.meaning bay.old).now
            → known_refusal (known self.old) generation (ask.Append id place bytes.now) ≡ None
            → (fragment : Fragment) → map_in self.old (B.meaning bay.old).now id ≡ Some fragment
            → IsAnswered (refusal_to_append fragment place bytes.now) result }
        ensures looked { IsTrue B.tells → IsOpen self.old (B.meaning bay.old).now
            → known_refusal (known self.old) generation (ask.Append id place bytes.now) ≡ None
            → (fragment : Fragment) → map_in self.old (B.meaning bay.old).now id ≡ Some fragment
            → (fault : StoreFault) → refusal_to_append fragment place bytes.now ≡ Some fault
            → IsLookedAt self.old.server.0 (B.meaning bay.old) (B.meaning bay.new) }
        ensures same { IfErr result (λ fault. fault ≢ StoreFault.Stopped → self.new ≡ self.old) }
        ensures grown { OnOk result (HasGrown id place (length bytes.now) self.old self.new) }
        ensures free { OnOk result (free_of self.new ≡ free_of self.old) }
        ensures told { IsTrue B.tells → IsOpen self.old (B.meaning bay.old).now
            → CarriesOut (ask.Append id place bytes.now) self.old self.new result (B.meaning bay.old) (B.meaning bay.new) }
        ensures others { IsTrue B.tells → SparesOthers self.old.server.0 (B.meaning bay.old) (B.meaning bay.new) }
        ensures system { IsStoreOf self.old.geo self.old.server self.new }
        ensures touches { Touches B.counts B.follows self.old.server.0 4 (is_stopped result) bay.old bay.new }
    {
        self.check_generation(generation)?;
        let Some(spot) = self.find(id) else {
            return Err(StoreFault::NoFragment);
        };
        self.append_at_spot(bay, id, spot, place, bytes)
    }
}
