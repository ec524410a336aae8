ghost use Rattle.std.specs.Prelude.{◌≡◌, ◌≤◌, ◌<◌, ◌+◌, ◌*◌, ◌^◌, ℕ, length, Err, IsTrue, IsErrOf, OnOk, OnErr};
ghost use Rattle.zb_batch.specs.declared.batch.Batch.{Batch};
ghost use Rattle.zb_outside.specs.Counts.{Touches, HasWritten};
ghost use Rattle.zb_outside.specs.Runs.{SparesOthers};
ghost use Rattle.zb_ckpt.specs.Says.{pages_of};
ghost use Rattle.zb_journal.specs.Spelling.{size_of};
ghost use Rattle.zb_journal.specs.Putting.{writes_at};
ghost use Rattle.zb_tables.specs.Tables.{Tables, Contents};
ghost use Rattle.zb_spelling.specs.Spelling.{spelling_of_tables};
ghost use Rattle.zb_platter.specs.Changing.{HasPlace, Leads, with_checkpoint};
ghost use Rattle.zb_platter.specs.Faults.{is_stopped};
ghost use Rattle.zb_platter.specs.Standing.{Stands};
ghost use Rattle.zb_platter.specs.declared.faults.NodeFault.TheVariants as fault;
ghost use Rattle.zb_replay.specs.Entering.{EnterTold, IsEntered, IsPlaced, PlaceTold};

use std::alloc::Global;
use zb_entries::Entry;
use zb_manager::Manager;
use zb_outside::Bay;
use zb_platter::{ManagerPlatter, NodeFault};

// The last value of the number of an entry.
const LAST: u64 = 281_474_976_710_656;

/// Makes the tables in memory the checkpoint of the platter.
pub(crate) fn cut<B: Bay>(
    alloc: Global,
    bay: &mut B,
    manager: &Manager,
    platter: &mut ManagerPlatter,
) -> Result<(), NodeFault>
    ensures told { IsTrue B.tells → (contents : Contents) → Stands platter.old contents manager.now.tables (B.meaning bay.old).now → PlaceTold platter.old.root.geo platter.new contents manager.now.tables result (B.meaning bay.old) (B.meaning bay.new) }
    ensures ok { OnOk result (platter.new ≡ with_checkpoint platter.old (spelling_of_tables manager.now.tables)) }
    ensures err { OnErr result (platter.new ≡ platter.old) }
    ensures worn { (field : ℕ) → IsErrOf result (fault.Worn field) → 2 ^ 48 < platter.old.journal.number }
    ensures others { IsTrue B.tells → SparesOthers 0 (B.meaning bay.old) (B.meaning bay.new) }
    ensures touches { Touches B.counts B.follows 0 (pages_of (length (spelling_of_tables manager.now.tables)) + 3) (is_stopped result) bay.old bay.new }
{
    let bytes = manager.spell(alloc)?;
    platter.checkpoint(bay, &bytes)
}

// Makes a place in the journal for an entry with so many pieces.
fn make_place<B: Bay>(
    alloc: Global,
    bay: &mut B,
    manager: &Manager,
    platter: &mut ManagerPlatter,
    pieces: usize,
) -> Result<(), NodeFault>
    requires few { pieces ≤ 4093 }
    ensures told { IsTrue B.tells → (contents : Contents) → Stands platter.old contents manager.now.tables (B.meaning bay.old).now → PlaceTold platter.old.root.geo platter.new contents manager.now.tables result (B.meaning bay.old) (B.meaning bay.new) }
    ensures place { OnOk result (HasPlace platter.new (32 + 16 * pieces)) }
    ensures placed { IsPlaced manager.now.tables platter.old platter.new }
    ensures still { HasPlace platter.old (32 + 16 * pieces) → (platter.new ≡ platter.old) × (bay.new ≡ bay.old) }
    ensures err { OnErr result (platter.new ≡ platter.old) }
    ensures worn { (field : ℕ) → IsErrOf result (fault.Worn field) → 2 ^ 48 < platter.old.journal.number }
    ensures others { IsTrue B.tells → SparesOthers 0 (B.meaning bay.old) (B.meaning bay.new) }
    ensures touches { Touches B.counts B.follows 0 (pages_of (length (spelling_of_tables manager.now.tables)) + 3) (is_stopped result) bay.old bay.new }
{
    if platter.has_place(pieces) {
        return Ok(());
    }
    cut(alloc, bay, manager, platter)
}

// How many pieces an entry has.
fn count_of(entry: &Entry) -> usize
    ensures { size_of entry.now ≡ 32 + 16 * result }
{
    match entry {
        Entry::Commit { pieces, .. } => pieces.len(),
        Entry::Attach { .. } | Entry::Mark { .. } | Entry::Retire { .. } => 0,
    }
}

/// Writes an entry of the tables in memory to the platter, behind a checkpoint of them where the journal has no place for it.
pub(crate) fn enter<B: Bay>(
    alloc: Global,
    bay: &mut B,
    manager: &Manager,
    platter: &mut ManagerPlatter,
    entry: Entry,
) -> Result<(), NodeFault>
    requires few { size_of entry ≤ 65520 }
    ensures told { IsTrue B.tells → (contents : Contents) → (after : Tables) → (batch : Batch) → Stands platter.old contents manager.now.tables (B.meaning bay.old).now → Leads platter.old contents manager.now.tables entry batch after → EnterTold platter.old.root.geo platter.new contents manager.now.tables after result (B.meaning bay.old) (B.meaning bay.new) }
    ensures system { platter.new.root.geo ≡ platter.old.root.geo }
    ensures ok { OnOk result (platter.new.journal.number ≡ platter.old.journal.number + 1) }
    ensures err { OnErr result (platter.new.journal.number ≡ platter.old.journal.number) }
    ensures entered { OnOk result (IsEntered manager.now.tables entry platter.old platter.new) }
    ensures placed { OnErr result (IsPlaced manager.now.tables platter.old platter.new) }
    ensures unwritten { (field : ℕ) → IsErrOf result (fault.Worn field) → bay.new ≡ bay.old }
    ensures lacking { IsErrOf result fault.NoMemory → HasPlace platter.old (size_of entry) → bay.new ≡ bay.old }
    ensures written { IsTrue B.tells → HasPlace platter.old (size_of entry) → OnOk result (HasWritten 0 (writes_at ((B.meaning bay.old).now.seen 0) (4096 + platter.old.journal.place)) (B.counts bay.old) (B.counts bay.new)) }
    ensures room { OnOk result (platter.old.journal.number < 2 ^ 48) }
    ensures spent { 2 ^ 48 ≤ platter.old.journal.number → result ≡ Err (fault.Worn 2) }
    ensures worn { (field : ℕ) → IsErrOf result (fault.Worn field) → 2 ^ 48 ≤ platter.old.journal.number }
    ensures others { IsTrue B.tells → SparesOthers 0 (B.meaning bay.old) (B.meaning bay.new) }
    ensures touches { Touches B.counts B.follows 0 (pages_of (length (spelling_of_tables manager.now.tables)) + 6) (is_stopped result) bay.old bay.new }
{
    if platter.number() >= LAST {
        return Err(NodeFault::Worn { field: 2 });
    }
    if let Err(fault) = make_place(alloc, bay, manager, platter, count_of(&entry)) {
        return Err(fault);
    }
    platter.add(alloc, bay, entry)
}
