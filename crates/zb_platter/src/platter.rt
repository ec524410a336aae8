ghost use Rattle.std.specs.Prelude.{◌≡◌, ◌≤◌, ◌<◌, ◌+◌, ◌*◌, ◌^◌, ◌↔◌, ℕ, List, length, Err, IsTrue, IsErrOf, OnOk, OnErr};
ghost use Rattle.zb_batch.specs.declared.batch.Batch.{Batch};
ghost use Rattle.zb_outside.specs.Counts.{Touches, HasWritten};
ghost use Rattle.zb_outside.specs.Runs.{SparesOthers};
ghost use Rattle.zb_ckpt.specs.Says.{pages_of};
ghost use Rattle.zb_journal.specs.Spelling.{size_of};
ghost use Rattle.zb_journal.specs.Putting.{writes_at};
ghost use Rattle.zb_tables.specs.Tables.{Tables, Contents};
ghost use Rattle.zb_tables.specs.Checkpoint.{CountsFit};
ghost use Rattle.zb_spelling.specs.Spelling.{spelling_of_tables};
ghost use Rattle.zb_platter.specs.Changing.{ChangeTold, HasPlace, Leads, with_checkpoint, with_entry};
ghost use Rattle.zb_platter.specs.Faults.{fault_of, is_stopped};
ghost use Rattle.zb_platter.specs.Naming.{first_naming as first_of};
ghost use Rattle.zb_platter.specs.Standing.{Stands};
ghost use Rattle.zb_platter.specs.declared.faults.NodeFault.TheVariants as fault;

use crate::faults::NodeFault;
use crate::naming::first_naming;
use std::alloc::Global;
use std::marker::Model;
use zb_ckpt::{Root, write};
use zb_entries::Entry;
use zb_journal::{Journal, JournalFault};
use zb_outside::Bay;
use zb_types::{ByteList, Geometry, LogId};

/// The last value of the number of an entry.
pub(crate) const LAST: u64 = 281_474_976_710_656;

/// The most bytes of a checkpoint.
pub(crate) const LONGEST: usize = 1_099_511_627_776;

const JOURNAL_ROOM: usize = 65_536;

/// What is known of the platter of the tables: its root, where the journal goes on, and the entries since the checkpoint.
#[derive(Drop)]
pub struct ManagerPlatter {
    pub(crate) root: Root,
    pub(crate) journal: Journal,
    pub(crate) entries: Vec<Entry>,
}

impl Model for ManagerPlatter {
    ghost use Rattle.zb_platter.specs.Standing.{SeenPlatter, AreNumbered};

    ghost Value = { SeenPlatter };

    ghost view = { λ a. record { root = a.root; journal = a.journal; entries = a.entries.items } };

    ghost invariant = { λ a. AreNumbered a.root a.journal a.entries.items };
}

// What the journal's refusal is to the tables.
fn fault_of(fault: JournalFault) -> NodeFault
    ensures { result ≡ fault_of fault }
{
    match fault {
        JournalFault::Worn => NodeFault::Worn { field: 2 },
        JournalFault::Stopped => NodeFault::Stopped,
        JournalFault::Full { .. } | JournalFault::Bad { .. } | JournalFault::NoMemory =>
            NodeFault::NoMemory,
    }
}

impl ManagerPlatter {
    /// The sizes of the system that the tables are of.
    pub fn system(&self) -> Geometry
        ensures { result ≡ self.now.root.geo }
    {
        self.root.geo
    }

    /// The number of the next entry, from 1. At 2^48 none is added any more.
    pub fn number(&self) -> u64
        ensures number { result ≡ self.now.journal.number }
        ensures next { result ≡ self.now.root.first + length self.now.entries }
    {
        self.journal.number
    }

    /// The number of the first entry behind the checkpoint, 1 to 2^48.
    pub fn first(&self) -> u64
        ensures first { result ≡ self.now.root.first }
        ensures high { result ≤ 2 ^ 48 }
    {
        self.root.first
    }

    /// The entries since the checkpoint.
    pub fn entries(&self) -> &[Entry]
        ensures { result.now ≡ self.now.entries }
    {
        self.entries.as_slice()
    }

    /// Whether an entry with so many pieces has a place in the journal. One with at most 4,093 has after a checkpoint.
    pub fn has_place(&self, pieces: usize) -> bool
        ensures { IsTrue result ↔ HasPlace self.now (32 + 16 * pieces) }
    {
        pieces <= 4_093 && self.journal.place as usize + 33 + 16 * pieces <= JOURNAL_ROOM
    }

    /// The number of the first entry since the checkpoint that commits a piece in this stripe. It goes through the entries
    /// since the checkpoint.
    pub fn first_naming(&self, log: LogId, stripe: u64) -> Option<u64>
        ensures { result ≡ first_of self.now.root.first log stripe self.now.entries }
    {
        first_naming(self.entries.as_slice(), self.root.first, log, stripe)
    }

    /// Adds an entry, for which there is a place in the journal. Where the platter stands as is known, with tables that can
    /// take the entry, it says at each moment the tables before or those after, and after Ok those after, with nothing
    /// unsynced. It takes two writes, or three where an entry of before a checkpoint stands open at the place. The other
    /// platters are as before at each moment.
    ///
    /// `Worn`, with field 2, comes exactly where the number of the next entry has its last value, and `Stopped` only where a
    /// call of the platter failed. Every other refusal leaves the platter as it was, and all leave what is known as it was.
    pub fn add<B: Bay>(&mut self, alloc: Global, bay: &mut B, entry: Entry) -> Result<(), NodeFault>
        requires place { HasPlace self.old (size_of entry) }
        ensures told { IsTrue B.tells → (contents : Contents) → (before after : Tables) → (batch : Batch) → Stands self.old contents before (B.meaning bay.old).now → Leads self.old contents before entry batch after → ChangeTold (with_entry self.old entry) contents before after result (B.meaning bay.old) (B.meaning bay.new) }
        ensures ok { OnOk result (self.new ≡ with_entry self.old entry) }
        ensures err { OnErr result (self.new ≡ self.old) }
        ensures spent { 2 ^ 48 ≤ self.old.journal.number → result ≡ Err (fault.Worn 2) }
        ensures worn { (field : ℕ) → IsErrOf result (fault.Worn field) → 2 ^ 48 ≤ self.old.journal.number }
        ensures unwritten { (IsErrOf result fault.Stopped → ⊥) → OnErr result (bay.new ≡ bay.old) }
        ensures others { IsTrue B.tells → SparesOthers 0 (B.meaning bay.old) (B.meaning bay.new) }
        ensures touches { Touches B.counts B.follows 0 3 (is_stopped result) bay.old bay.new }
        ensures written { IsTrue B.tells → OnOk result (HasWritten 0 (writes_at ((B.meaning bay.old).now.seen 0) (4096 + self.old.journal.place)) (B.counts bay.old) (B.counts bay.new)) }
    {
        if self.journal.number >= LAST {
            return Err(NodeFault::Worn { field: 2 });
        }
        self.entries.reserve(1)?;
        if let Err(fault) = self.journal.append(alloc, bay, &entry) {
            return Err(fault_of(fault));
        }
        self.entries.push(entry).unwrap();
        Ok(())
    }

    /// Writes the bytes of the tables as a checkpoint, behind which the journal begins anew. Where the platter stands as is
    /// known, with these tables, it says them at each moment, and after Ok with nothing unsynced. It takes a write for each
    /// page of 65,536 bytes, and at most three more. The other platters are as before at each moment.
    ///
    /// `Worn`, with field 2, comes exactly where the number of the next entry is past its last value, as no platter has it
    /// to which entries were added; `NoMemory` exactly where there are more than 2^40 bytes, which no checkpoint may have;
    /// both leave the platter as it was. `Stopped` comes only where a call of the platter failed. All refusals leave what is
    /// known as it was.
    pub fn checkpoint<B: Bay>(&mut self, bay: &mut B, bytes: &ByteList) -> Result<(), NodeFault>
        ensures told { IsTrue B.tells → (contents : Contents) → (tables : Tables) → Stands self.old contents tables (B.meaning bay.old).now → CountsFit tables → spelling_of_tables tables ≡ bytes.now → ChangeTold (with_checkpoint self.old bytes.now) contents tables tables result (B.meaning bay.old) (B.meaning bay.new) }
        ensures ok { OnOk result (self.new ≡ with_checkpoint self.old bytes.now) }
        ensures err { OnErr result (self.new ≡ self.old) }
        ensures worn { (field : ℕ) → IsErrOf result (fault.Worn field) → (field ≡ 2) × (2 ^ 48 < self.old.journal.number) }
        ensures memory { IsErrOf result fault.NoMemory → 2 ^ 40 < length bytes.now }
        ensures unwritten { (IsErrOf result fault.Stopped → ⊥) → OnErr result (bay.new ≡ bay.old) }
        ensures others { IsTrue B.tells → SparesOthers 0 (B.meaning bay.old) (B.meaning bay.new) }
        ensures touches { Touches B.counts B.follows 0 (pages_of (length bytes.now) + 3) (is_stopped result) bay.old bay.new }
    {
        let number = self.journal.number;
        if number > LAST {
            return Err(NodeFault::Worn { field: 2 });
        }
        if bytes.len() > LONGEST {
            return Err(NodeFault::NoMemory);
        }
        let next = Root {
            first: number,
            ..self.root
        };
        let Ok(root) = write(bay, &next, bytes) else {
            return Err(NodeFault::Stopped);
        };
        self.root = root;
        self.journal.cut();
        self.entries.clear();
        Ok(())
    }
}
