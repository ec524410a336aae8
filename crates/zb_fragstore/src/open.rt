ghost use Rattle.std.specs.Prelude.{◌*◌, ◌≡◌, ◌≢◌, ◌≤◌, ◌<◌, ◌^◌, ℕ, length, All, None, Some, IsTrue, IfOk, IfErr};
ghost use Rattle.zb_outside.specs.Counts.{Touches};
ghost use Rattle.zb_outside.specs.Runs.{Run, IsSettled, Held, SparesOthers};
ghost use Rattle.zb_cell.specs.Cell.{value};
ghost use Rattle.zb_types.specs.declared.ids.FragId.{FragId};
ghost use Rattle.zb_slots.specs.Slots.{Slot};
ghost use Rattle.zb_slots.specs.Reading.{LeftAlone};
ghost use Rattle.zb_slots.specs.Showing.{AllMayStand};
ghost use Rattle.zb_slots.specs.Shown.{AreShownBy};
ghost use Rattle.zb_slots.specs.Slots.{slots_in};
ghost use Rattle.zb_slots.specs.Holding.{IsLarge};
ghost use Rattle.zb_slot_map.specs.Super.{IsOf};
ghost use Rattle.zb_fragstore.specs.declared.faults.OpenFault.TheVariants as fault;
ghost use Rattle.zb_fragstore.specs.Seen.{free_of, length_of, IsStoreOf};
ghost use Rattle.zb_fragstore.specs.Ranges.{AreInRange};
ghost use Rattle.zb_fragstore.specs.Changing.{IsOpen};
ghost use Rattle.zb_fragstore.specs.Answers.{IsUnforeseen, is_stopped};
ghost use Rattle.zb_fragstore.specs.Reading.{IsLookedAt};
ghost use Rattle.zb_fragstore.specs.Opening.{opening_stopped, format_writes, IsGood, IsUnfit, StaysWhole, Formats, IsOpened, IsBuilt, TellsSlots, after_read, after_index};

use crate::faults::{OpenFault, or_stopped, starved};
use crate::store::FragStore;
use std::alloc::Global;
use zb_index::{Built, Index, IndexFault};
use zb_outside::Bay;
use zb_slot_map::{find_fence, format_at, free_older};
use zb_slots::{Header, ReadFault, headers};
use zb_types::{Failed, Geometry, ServerId, StoreFault};

impl From<Failed> for OpenFault {
    ghost from_gives = { λ _ e. e ≡ fault.Stopped };

    fn from(_: Failed) -> OpenFault {
        OpenFault::Stopped
    }
}

impl From<ReadFault> for OpenFault {
    ghost from_gives = { λ read e. e ≡ after_read read };

    fn from(fault: ReadFault) -> OpenFault {
        match fault {
            ReadFault::NoMemory => OpenFault::NoMemory,
            ReadFault::Stopped => OpenFault::Stopped,
        }
    }
}

impl From<IndexFault> for OpenFault {
    ghost from_gives = { λ built e. e ≡ after_index built };

    fn from(fault: IndexFault) -> OpenFault {
        match fault {
            IndexFault::NoMemory => OpenFault::NoMemory,
            IndexFault::Bad { slot } => OpenFault::Damaged { slot },
        }
    }
}

// The fence on the platter of a server.
fn fence_of<B: Bay>(bay: &mut B, geo: &Geometry, server: ServerId) -> Result<u64, OpenFault>
    ensures told { IsTrue B.tells → Held server.0 (B.meaning bay.old) (B.meaning bay.new) }
    ensures found { IsTrue B.tells → IfOk result (λ fence. IsOf geo.now server.0 (value ((B.meaning bay.old).now.seen server.0) 0) (Some fence)) }
    ensures fits { IfOk result (λ fence. fence < 2 ^ 64) }
    ensures unfit { IsTrue B.tells → IfErr result (IsUnfit geo.now server ((B.meaning bay.old).now.seen server.0)) }
    ensures touches { Touches B.counts B.follows server.0 0 (opening_stopped result) bay.old bay.new }
{
    let Some(fence) = find_fence(bay, geo, usize::from(server.0), server)? else {
        return Err(OpenFault::Blank);
    };
    Ok(fence)
}

// The index of the slots with these headers, and the slots of older parities, which are free in it.
fn index_of(alloc: Global, geo: &Geometry, headers: &[Option<Header>]) -> Result<Built, OpenFault>
    requires count { length headers.now ≡ geo.now.slots }
    requires stand { AllMayStand geo.now.servers geo.now.fragment headers.now }
    ensures built { IfOk result (λ built. (slots : ℕ → Slot) → AreShownBy headers.now slots → IsBuilt geo.now slots built.index built.older) }
    ensures fault { IfErr result (λ fault. (slots : ℕ → Slot) → AreShownBy headers.now slots → TellsSlots slots geo.now.slots fault) }
    ensures range { IfOk result (λ built. AreInRange geo.now built.index) }
    ensures within { IfOk result (λ built. All (λ slot. slot < geo.now.slots) built.older) }
    ensures few { IfOk result (λ built. length built.older ≤ geo.now.slots) }
    ensures no_call { IfErr result (λ fault. fault ≢ OpenFault.Stopped) }
{
    Ok(Index::build(alloc, headers)?)
}

// The index of the slots on a platter, and the slots of older parities, which are free in it.
fn read_index<B: Bay>(
    alloc: Global,
    bay: &mut B,
    geo: &Geometry,
    platter: usize,
) -> Result<Built, OpenFault>
    requires platter { platter ≤ 255 }
    ensures told { IsTrue B.tells → LeftAlone platter (B.meaning bay.old) (B.meaning bay.new) }
    ensures built { IsTrue B.tells → IfOk result (λ built. IsBuilt geo.now (slots_in geo.now ((B.meaning bay.old).now.seen platter)) built.index built.older) }
    ensures fault { IsTrue B.tells → IfErr result (TellsSlots (slots_in geo.now ((B.meaning bay.old).now.seen platter)) geo.now.slots) }
    ensures range { IfOk result (λ built. AreInRange geo.now built.index) }
    ensures within { IfOk result (λ built. All (λ slot. slot < geo.now.slots) built.older) }
    ensures few { IfOk result (λ built. length built.older ≤ geo.now.slots) }
    ensures touches { Touches B.counts B.follows platter 0 (opening_stopped result) bay.old bay.new }
{
    let found = headers(alloc, bay, geo, platter)?;
    index_of(alloc, geo, &found)
}

impl FragStore {
    /// Makes the platter of a server anew, with no fragment and this fence.
    ///
    /// `NoMemory` and `Stopped` alone are its faults.
    pub fn format<B: Bay>(
        alloc: Global,
        bay: &mut B,
        geo: &Geometry,
        server: ServerId,
        fence: u64,
    ) -> Result<FragStore, StoreFault>
        ensures is { IfOk result (IsStoreOf geo.now server) }
        ensures fence { IfOk result (λ store. store.fence ≡ fence) }
        ensures free { IfOk result (λ store. free_of store ≡ geo.now.slots) }
        ensures none { IfOk result (λ store. (id : FragId) → length_of store id ≡ None) }
        ensures answer { IfErr result IsUnforeseen }
        ensures still { IfErr result (λ fault. fault ≢ StoreFault.Stopped → bay.new ≡ bay.old) }
        ensures told { IsTrue B.tells → Formats geo.now server fence result (B.meaning bay.old) (B.meaning bay.new) }
        ensures is_open { IsTrue B.tells → IfOk result (λ store. IsOpen store (B.meaning bay.new).now) }
        ensures touches { Touches B.counts B.follows server.0 (format_writes geo.now) (is_stopped result) bay.old bay.new }
    {
        let index = Index::empty(alloc, geo.slots).map_err(starved)?;
        or_stopped(format_at(bay, geo, usize::from(server.0), server, fence))?;
        Ok(FragStore {
            geo: *geo,
            server,
            index,
            fence,
        })
    }

    /// Opens the store on the platter of a server. Of a parity that stands twice the newer counts, and the older is freed.
    ///
    /// `Blank` comes exactly where the super cell has no value or isn't this server's of this system, and else `Damaged`
    /// only where a slot is bad, with the first such; where there is no room for the headers, `NoMemory` may come in its
    /// place. `NoMemory` never comes for a platter of another. After these faults the platter is as it was. The other
    /// platters are as before at each moment, whatever this one holds.
    pub fn open<B: Bay>(
        alloc: Global,
        bay: &mut B,
        geo: &Geometry,
        server: ServerId,
    ) -> Result<FragStore, OpenFault>
        ensures is { IfOk result (IsStoreOf geo.now server) }
        ensures good { IsTrue B.tells → IfOk result (IsGood geo.now server ((B.meaning bay.old).now.seen server.0)) }
        ensures unfit { IsTrue B.tells → IfErr result (IsUnfit geo.now server ((B.meaning bay.old).now.seen server.0)) }
        ensures looked { IsTrue B.tells → IfErr result (λ fault. fault ≢ OpenFault.Stopped → IsLookedAt server.0 (B.meaning bay.old) (B.meaning bay.new)) }
        ensures told { IsTrue B.tells → IsSettled server.0 (B.meaning bay.old).now
            → IsLarge geo.now ((B.meaning bay.old).now.seen server.0)
            → Run server.0 (StaysWhole geo.now ((B.meaning bay.old).now.seen server.0)) (B.meaning bay.old) (B.meaning bay.new) }
        ensures others { IsTrue B.tells → SparesOthers server.0 (B.meaning bay.old) (B.meaning bay.new) }
        ensures is_open { IsTrue B.tells → IsSettled server.0 (B.meaning bay.old).now
            → IsLarge geo.now ((B.meaning bay.old).now.seen server.0)
            → IfOk result (λ store. IsOpened store (B.meaning bay.old) (B.meaning bay.new)) }
        ensures touches { Touches B.counts B.follows server.0 (3 * geo.now.slots) (opening_stopped result) bay.old bay.new }
    {
        let fence = fence_of(bay, geo, server)?;
        let platter = usize::from(server.0);
        let built = read_index(alloc, bay, geo, platter)?;
        free_older(bay, geo, platter, built.older.slice())?;
        Ok(FragStore {
            geo: *geo,
            server,
            index: built.index,
            fence,
        })
    }
}
