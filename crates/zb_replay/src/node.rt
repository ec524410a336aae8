ghost use Rattle.std.specs.Prelude.{◌≡◌, ◌≢◌, ◌≤◌, ◌<◌, ◌+◌, ◌^◌, ℕ, length, Err, None, Some, IsTrue, IsErrOf, IfErr, IfOk, OnOk, OnErr};
ghost use Rattle.zb_outside.specs.Counts.{Touches, HasWritten};
ghost use Rattle.zb_outside.specs.Runs.{SparesOthers};
ghost use Rattle.zb_ckpt.specs.Says.{pages_of};
ghost use Rattle.zb_types.specs.Names.{last_number};
ghost use Rattle.zb_tables.specs.Tables.{Contents, first_tables, last_value};
ghost use Rattle.zb_tables.specs.Fold.{attached, with_members};
ghost use Rattle.zb_tables.specs.Taking.{IsState};
ghost use Rattle.zb_spelling.specs.Spelling.{spelling_of_tables};
ghost use Rattle.zb_manager.specs.Managers.{IsFreeFor, SameTables, sizes_of};
ghost use Rattle.zb_manager.specs.Seen.{held_by};
ghost use Rattle.zb_entries.specs.declared.entry.Entry.TheVariants.{Attach, Mark};
ghost use Rattle.zb_journal.specs.Putting.{writes_at};
ghost use Rattle.zb_platter.specs.Changing.{HasPlace, with_checkpoint};
ghost use Rattle.zb_platter.specs.Faults.{is_stopped};
ghost use Rattle.zb_platter.specs.declared.faults.NodeFault.TheVariants as fault;
ghost use Rattle.zb_replay.specs.Entering.{IsEntered, IsPlaced};
ghost use Rattle.zb_replay.specs.Nodes.{IsNode, NodeStands, NodeTold, SameSystem};

use crate::entering::{cut, enter};
use std::alloc::Global;
use std::marker::Model;
use zb_entries::Entry;
use zb_manager::{Blocked, Manager};
use zb_outside::Bay;
use zb_platter::{ManagerPlatter, NodeFault};
use zb_types::{Geometry, LogId, Members};

/// The last number of a log.
const LAST_LOG: u32 = 4_294_967_295;

/// The file manager's node: its tables in memory, and what is known of platter 0, which has them. After `Stopped` the platter
/// may say the tables before the call or those after it: the node is given up then, and opened again.
#[derive(Drop)]
pub struct ManagerNode {
    pub(crate) manager: Manager,
    pub(crate) platter: ManagerPlatter,
}

impl Model for ManagerNode {
    ghost use Rattle.zb_replay.specs.Nodes.{SeenNode, IsNode};

    ghost Value = { SeenNode };

    ghost view = { λ a. record { manager = a.manager; platter = a.platter } };

    ghost invariant = { λ a. IsNode a.manager a.platter };
}

impl ManagerNode {
    /// Makes platter 0 that of the empty tables, whatever it held. The other platters are as before at each moment.
    ///
    /// `NoMemory` leaves the platter as it was; `Stopped` comes only where a call of the platter failed.
    pub fn format<B: Bay>(
        alloc: Global,
        bay: &mut B,
        geo: &Geometry,
    ) -> Result<ManagerNode, NodeFault>
        ensures told { IsTrue B.tells → (contents : Contents) → IfOk result (λ node. NodeStands node contents (B.meaning bay.new).now) }
        ensures tables { IfOk result (λ node. node.manager.tables ≡ first_tables) }
        ensures sizes { IfOk result (λ node. node.manager.sizes ≡ sizes_of geo.now) }
        ensures system { IfOk result (λ node. node.platter.root.geo ≡ geo.now) }
        ensures holder { IfOk result (λ node. node.manager.holder ≡ None) }
        ensures worn { (field : ℕ) → IsErrOf result (fault.Worn field) → ⊥ }
        ensures unwritten { IsErrOf result fault.NoMemory → bay.new ≡ bay.old }
        ensures others { IsTrue B.tells → SparesOthers 0 (B.meaning bay.old) (B.meaning bay.new) }
        ensures touches { Touches B.counts B.follows 0 (pages_of (length (spelling_of_tables first_tables)) + 4) (is_stopped result) bay.old bay.new }
    {
        let manager = Manager::new(alloc, geo)?;
        let bytes = manager.spell(alloc)?;
        let platter = zb_platter::format(alloc, bay, geo, &bytes)?;
        Ok(ManagerNode { manager, platter })
    }

    /// The file manager in memory.
    pub fn manager(&self) -> &Manager
        ensures { result.now ≡ self.now.manager }
    {
        &self.manager
    }

    /// The sizes of the system.
    pub fn system(&self) -> Geometry
        ensures { result ≡ self.now.platter.root.geo }
    {
        self.platter.system()
    }

    /// The tables and the platter are of one system, and number the next entry alike.
    pub fn know_node(&self)
        ensures { IsNode self.now.manager self.now.platter }
    {
        let _ = &self.manager;
    }

    /// Has a client hold the file manager. Refused exactly where another holds. It isn't kept on the platter.
    pub fn hold(&mut self, client: u8) -> Result<(), Blocked>
        ensures ok { OnOk result (self.new.manager ≡ held_by (Some client) self.old.manager) }
        ensures free { OnOk result (IsFreeFor client self.old.manager.holder) }
        ensures blocked { IfErr result (λ blocked. (self.old.manager.holder ≡ Some blocked.holder) × (blocked.holder ≢ client)) }
        ensures err { OnErr result (self.new.manager ≡ self.old.manager) }
        ensures platter { self.new.platter ≡ self.old.platter }
    {
        self.manager.hold(client)
    }

    /// Nobody holds.
    pub fn release(&mut self)
        ensures manager { self.new.manager ≡ held_by None self.old.manager }
        ensures platter { self.new.platter ≡ self.old.platter }
    {
        self.manager.release();
    }

    /// Makes the tables the checkpoint of the platter, behind which the journal begins anew. At each moment it says them. It
    /// takes a write for each page of 65,536 bytes, and at most three more.
    ///
    /// `Worn`, with field 2, comes only where the journal's next number is past its last value. After any answer but
    /// `Stopped`, which comes only where a call of the platter failed, it stands under the node as before.
    pub fn checkpoint<B: Bay>(&mut self, alloc: Global, bay: &mut B) -> Result<(), NodeFault>
        ensures told { IsTrue B.tells → (contents : Contents) → NodeStands self.old contents (B.meaning bay.old).now → NodeTold self.old.platter.root.geo self.new contents self.old.manager.tables None (is_stopped result) (B.meaning bay.old) (B.meaning bay.new) }
        ensures manager { self.new.manager ≡ self.old.manager }
        ensures cut { OnOk result (self.new.platter ≡ with_checkpoint self.old.platter (spelling_of_tables self.old.manager.tables)) }
        ensures err { OnErr result (self.new ≡ self.old) }
        ensures worn { (field : ℕ) → IsErrOf result (fault.Worn field) → 2 ^ 48 < self.old.platter.journal.number }
        ensures others { IsTrue B.tells → SparesOthers 0 (B.meaning bay.old) (B.meaning bay.new) }
        ensures touches { Touches B.counts B.follows 0 (pages_of (length (spelling_of_tables self.old.manager.tables)) + 3) (is_stopped result) bay.old bay.new }
    {
        cut(alloc, bay, &self.manager, &mut self.platter)
    }

    /// Gives an owner, 0 for the cleaner and else a client of the system, a new log; its former log ends. The entry is
    /// durable when it answers. A journal without a place for it is checkpointed first.
    ///
    /// `Worn` comes exactly where a number stands at its last value: field 1 that of the next log, 4,294,967,295, and else 2
    /// that of the next entry, 2^48. `NoMemory` leaves the tables as they were, and the platter too where the journal had a
    /// place, as `Worn` always does. `Stopped` comes only where a call of the platter failed.
    pub fn attach<B: Bay>(
        &mut self,
        alloc: Global,
        bay: &mut B,
        owner: u8,
    ) -> Result<LogId, NodeFault>
        requires owner { owner ≤ self.old.manager.sizes.clients }
        ensures told { IsTrue B.tells → (contents : Contents) → NodeStands self.old contents (B.meaning bay.old).now
            → NodeTold self.old.platter.root.geo self.new contents self.old.manager.tables (Some (attached self.old.manager.tables owner (record { 0 = self.old.manager.tables.next_log }))) (is_stopped result) (B.meaning bay.old) (B.meaning bay.new) }
        ensures log { IfOk result (λ log. log.0 ≡ self.old.manager.tables.next_log) }
        ensures tables { IfOk result (λ log. self.new.manager.tables ≡ attached self.old.manager.tables owner log) }
        ensures err { OnErr result (SameTables self.old.manager self.new.manager) }
        ensures same { SameSystem self.old self.new }
        ensures last { last_number ≤ self.old.manager.tables.next_log → result ≡ Err (fault.Worn 1) }
        ensures worn { (field : ℕ) → IsErrOf result (fault.Worn field) → field ≢ 2 → last_number ≤ self.old.manager.tables.next_log }
        ensures spent { IsErrOf result (fault.Worn 2) → 2 ^ 48 ≤ self.old.platter.journal.number }
        ensures entered { OnOk result (IsEntered self.old.manager.tables (Attach owner (record { 0 = self.old.manager.tables.next_log })) self.old.platter self.new.platter) }
        ensures placed { OnErr result (IsPlaced self.old.manager.tables self.old.platter self.new.platter) }
        ensures unwritten { (field : ℕ) → IsErrOf result (fault.Worn field) → bay.new ≡ bay.old }
        ensures lacking { IsErrOf result fault.NoMemory → HasPlace self.old.platter 32 → bay.new ≡ bay.old }
        ensures written { IsTrue B.tells → HasPlace self.old.platter 32 → OnOk result (HasWritten 0 (writes_at ((B.meaning bay.old).now.seen 0) (4096 + self.old.platter.journal.place)) (B.counts bay.old) (B.counts bay.new)) }
        ensures others { IsTrue B.tells → SparesOthers 0 (B.meaning bay.old) (B.meaning bay.new) }
        ensures touches { Touches B.counts B.follows 0 (pages_of (length (spelling_of_tables self.old.manager.tables)) + 6) (is_stopped result) bay.old bay.new }
    {
        let next = self.manager.next_log();
        if next >= LAST_LOG {
            return Err(NodeFault::Worn { field: 1 });
        }
        self.manager.room(alloc)?;
        let entry = Entry::Attach {
            owner,
            log: LogId(next),
        };
        if let Err(fault) = enter(alloc, bay, &self.manager, &mut self.platter, entry) {
            return Err(fault);
        }
        Ok(self.manager.attach(owner))
    }

    /// Sets the members, whose server is one of the system and whose generation is none before that of the tables, up to
    /// 2^48. The entry is durable when it answers. A journal without a place for it is checkpointed first.
    ///
    /// `Worn`, with field 2, comes exactly where the number of the next entry has its last value, 2^48. `NoMemory` leaves the
    /// tables as they were, and the platter too where the journal had a place, as `Worn` always does. `Stopped` comes only
    /// where a call of the platter failed.
    pub fn mark<B: Bay>(
        &mut self,
        alloc: Global,
        bay: &mut B,
        members: Members,
    ) -> Result<(), NodeFault>
        requires state { IsState self.old.manager.sizes.servers members.state }
        requires generation { self.old.manager.tables.members.generation ≤ members.generation }
        requires last { members.generation ≤ last_value }
        ensures told { IsTrue B.tells → (contents : Contents) → NodeStands self.old contents (B.meaning bay.old).now
            → NodeTold self.old.platter.root.geo self.new contents self.old.manager.tables (Some (with_members self.old.manager.tables members)) (is_stopped result) (B.meaning bay.old) (B.meaning bay.new) }
        ensures tables { OnOk result (self.new.manager.tables ≡ with_members self.old.manager.tables members) }
        ensures err { OnErr result (self.new.manager ≡ self.old.manager) }
        ensures same { SameSystem self.old self.new }
        ensures spent { 2 ^ 48 ≤ self.old.platter.journal.number → result ≡ Err (fault.Worn 2) }
        ensures worn { (field : ℕ) → IsErrOf result (fault.Worn field) → 2 ^ 48 ≤ self.old.platter.journal.number }
        ensures entered { OnOk result (IsEntered self.old.manager.tables (Mark members) self.old.platter self.new.platter) }
        ensures placed { OnErr result (IsPlaced self.old.manager.tables self.old.platter self.new.platter) }
        ensures unwritten { (field : ℕ) → IsErrOf result (fault.Worn field) → bay.new ≡ bay.old }
        ensures lacking { IsErrOf result fault.NoMemory → HasPlace self.old.platter 32 → bay.new ≡ bay.old }
        ensures written { IsTrue B.tells → HasPlace self.old.platter 32 → OnOk result (HasWritten 0 (writes_at ((B.meaning bay.old).now.seen 0) (4096 + self.old.platter.journal.place)) (B.counts bay.old) (B.counts bay.new)) }
        ensures others { IsTrue B.tells → SparesOthers 0 (B.meaning bay.old) (B.meaning bay.new) }
        ensures touches { Touches B.counts B.follows 0 (pages_of (length (spelling_of_tables self.old.manager.tables)) + 6) (is_stopped result) bay.old bay.new }
    {
        let entry = Entry::Mark { members };
        if let Err(fault) = enter(alloc, bay, &self.manager, &mut self.platter, entry) {
            return Err(fault);
        }
        self.manager.set_members(members);
        Ok(())
    }
}
