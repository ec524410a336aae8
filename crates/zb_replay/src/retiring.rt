ghost use Rattle.std.specs.Prelude.{◌≡◌, ◌≤◌, ◌<◌, ◌+◌, ◌^◌, ℕ, length, Some, IsTrue, IsErrOf, OnOk, OnErr};
ghost use Rattle.zb_types.specs.declared.tables.RetireFault.TheVariants as fault;
ghost use Rattle.zb_outside.specs.Counts.{Touches, HasWritten};
ghost use Rattle.zb_outside.specs.Runs.{SparesOthers};
ghost use Rattle.zb_entries.specs.declared.entry.Entry.TheVariants.{Retire};
ghost use Rattle.zb_ckpt.specs.Says.{pages_of};
ghost use Rattle.zb_tables.specs.Tables.{Contents};
ghost use Rattle.zb_tables.specs.Fold.{after_retire};
ghost use Rattle.zb_spelling.specs.Spelling.{spelling_of_tables};
ghost use Rattle.zb_replay.specs.Answers.{TellsKept, retire_refusal, retire_stopped};
ghost use Rattle.zb_journal.specs.Putting.{writes_at};
ghost use Rattle.zb_platter.specs.Changing.{HasPlace};
ghost use Rattle.zb_replay.specs.Entering.{IsEntered, IsPlaced};
ghost use Rattle.zb_replay.specs.Nodes.{NodeStands, NodeTold, SameSystem};

use crate::entering::enter;
use crate::faults::retire_fault;
use crate::node::ManagerNode;
use std::alloc::Global;
use zb_entries::Entry;
use zb_outside::Bay;
use zb_types::{LogId, RetireFault, State};

impl ManagerNode {
    // Looks whether a stripe may be given up.
    fn may_retire(&self, alloc: Global, log: LogId, stripe: u64) -> Result<(), RetireFault>
        ensures refused { TellsKept (retire_refusal self.now log stripe) result }
        ensures stopped { IsErrOf result fault.Stopped → ⊥ }
        ensures worn { (field : ℕ) → IsErrOf result (fault.Worn field) → ⊥ }
    {
        if let State::Mending(server) = self.manager.members().state {
            return Err(RetireFault::Mending { server });
        }
        let Ok(found) = self.manager.live(alloc, log, stripe) else {
            return Err(RetireFault::NoMemory);
        };
        let count = found.len();
        if count > 0 {
            return Err(RetireFault::Live {
                count: count as u64,
            });
        }
        match self.platter.first_naming(log, stripe) {
            Some(entry) => Err(RetireFault::Needed { entry }),
            None => Ok(()),
        }
    }

    /// Gives up a stripe that no pointer names, and that no commit since the checkpoint names. The entry is durable when it
    /// answers. A journal without a place for it is checkpointed first.
    ///
    /// `Mending` comes exactly where a server is mended; then `Live` where so many pointers name the stripe, not 0; then
    /// `Needed` where that entry is the first since the checkpoint that commits a piece in it; then `Worn`, with field 2,
    /// where the number of the next entry has its last value, 2^48. `NoMemory` may come in the place of any but `Mending`, and
    /// leaves the tables as they were, and the platter too where the journal had a place, as the other refusals always do.
    /// `Stopped` comes only where a call of the platter failed.
    pub fn retire<B: Bay>(
        &mut self,
        alloc: Global,
        bay: &mut B,
        log: LogId,
        stripe: u64,
    ) -> Result<(), RetireFault>
        ensures told { IsTrue B.tells → (contents : Contents) → NodeStands self.old contents (B.meaning bay.old).now
            → NodeTold self.old.platter.root.geo self.new contents self.old.manager.tables (Some (after_retire self.old.manager.tables log stripe)) (retire_stopped result) (B.meaning bay.old) (B.meaning bay.new) }
        ensures tables { OnOk result (self.new.manager.tables ≡ after_retire self.old.manager.tables log stripe) }
        ensures err { OnErr result (self.new.manager ≡ self.old.manager) }
        ensures same { SameSystem self.old self.new }
        ensures refused { TellsKept (retire_refusal self.old log stripe) result }
        ensures worn { (field : ℕ) → IsErrOf result (fault.Worn field) → 2 ^ 48 ≤ self.old.platter.journal.number }
        ensures room { OnOk result (self.old.platter.journal.number < 2 ^ 48) }
        ensures spent { 2 ^ 48 ≤ self.old.platter.journal.number → IsErrOf result fault.Stopped → ⊥ }
        ensures entered { OnOk result (IsEntered self.old.manager.tables (Retire log stripe) self.old.platter self.new.platter) }
        ensures placed { OnErr result (IsPlaced self.old.manager.tables self.old.platter self.new.platter) }
        ensures unwritten { (IsErrOf result fault.Stopped → ⊥) → (IsErrOf result fault.NoMemory → ⊥) → OnErr result (bay.new ≡ bay.old) }
        ensures lacking { IsErrOf result fault.NoMemory → HasPlace self.old.platter 32 → bay.new ≡ bay.old }
        ensures written { IsTrue B.tells → HasPlace self.old.platter 32 → OnOk result (HasWritten 0 (writes_at ((B.meaning bay.old).now.seen 0) (4096 + self.old.platter.journal.place)) (B.counts bay.old) (B.counts bay.new)) }
        ensures others { IsTrue B.tells → SparesOthers 0 (B.meaning bay.old) (B.meaning bay.new) }
        ensures touches { Touches B.counts B.follows 0 (pages_of (length (spelling_of_tables self.old.manager.tables)) + 6) (retire_stopped result) bay.old bay.new }
    {
        self.may_retire(alloc, log, stripe)?;
        let retire = Entry::Retire { log, stripe };
        if let Err(fault) = enter(alloc, bay, &self.manager, &mut self.platter, retire) {
            return Err(retire_fault(fault));
        }
        self.manager.drop_stripe(log, stripe);
        Ok(())
    }
}
