ghost use Rattle.std.specs.Prelude.{◌≡◌, ◌≤◌, ◌+◌, ◌*◌, ℕ, length, Some, IsTrue, IsErrOf, IfOk, OnOk, OnErr};
ghost use Rattle.zb_entries.specs.declared.entry.Entry.TheVariants.{Commit};
ghost use Rattle.zb_outside.specs.Counts.{Touches, HasWritten};
ghost use Rattle.zb_outside.specs.Runs.{SparesOthers};
ghost use Rattle.zb_ckpt.specs.Says.{pages_of};
ghost use Rattle.zb_types.specs.Keyed.{look};
ghost use Rattle.zb_types.specs.declared.tables.CommitFault.TheVariants as fault;
ghost use Rattle.zb_journal.specs.Putting.{writes_at};
ghost use Rattle.zb_platter.specs.Changing.{HasPlace};
ghost use Rattle.zb_tables.specs.Tables.{Contents};
ghost use Rattle.zb_tables.specs.Fold.{folded};
ghost use Rattle.zb_tables.specs.Replay.{IsBatchIn, joined};
ghost use Rattle.zb_tables.specs.Taking.{IsAnswer, MayCommit, commit_refusal};
ghost use Rattle.zb_spelling.specs.Spelling.{spelling_of_tables};
ghost use Rattle.zb_manager.specs.Managers.{SameTables};
ghost use Rattle.zb_manager.specs.Works.{copied};
ghost use Rattle.zb_manager.specs.Seen.{IsPrepared, IsReady, last_in, moves_of};
ghost use Rattle.zb_replay.specs.Answers.{TellsRefusal, commit_stopped};
ghost use Rattle.zb_replay.specs.Entering.{IsEntered, IsPlaced};
ghost use Rattle.zb_replay.specs.Nodes.{NodeStands, NodeTold, SameSystem};

use crate::entering::enter;
use crate::faults::commit_fault;
use crate::node::ManagerNode;
use std::alloc::Global;
use zb_batch::Batch;
use zb_entries::Entry;
use zb_manager::{Manager, Prepared, ReplyList};
use zb_outside::Bay;
use zb_types::{CommitFault, Mem, Piece, PieceList, Reply};

/// What a commit answers.
#[derive(Drop)]
pub struct Committed {
    /// The replies to the operations of the batch, in order; none for a clean.
    pub replies: ReplyList,
    /// How many blocks the cleaner moved.
    pub copied: u32,
    /// How many blocks it copied in vain.
    pub rejected: u32,
}

// A batch that can be committed: what was prepared, a copy of its replies, and its entry.
#[derive(Drop)]
struct Draft {
    prepared: Prepared,
    replies: ReplyList,
    entry: Entry,
}

fn copy_replies(alloc: Global, replies: &[Reply]) -> Mem<ReplyList>
    ensures { IfOk result (λ copied. copied ≡ replies.now) }
{
    let mut copied = ReplyList::new(alloc)?;
    for reply in replies {
        copied.push(reply.copy(alloc)?)?;
    }
    Ok(copied)
}

// The entry of a batch.
fn entry_of(alloc: Global, batch: &Batch, pieces: &[Piece], generation: u64) -> Mem<Entry>
    ensures { IfOk result (λ entry. entry ≡ Commit batch.now.log batch.now.number generation pieces.now) }
{
    Ok(Entry::Commit {
        log: batch.log,
        batch: batch.number,
        generation,
        pieces: PieceList::from_slice(alloc, pieces)?,
    })
}

// Prepares a batch, and takes all memory that its commit needs.
fn drafted(
    alloc: Global,
    manager: &mut Manager,
    batch: &Batch,
    pieces: &[Piece],
    generation: u64,
) -> Result<Draft, CommitFault>
    requires { MayCommit manager.old.sizes manager.old.tables batch.now pieces.now }
    ensures refused { IsAnswer (commit_refusal manager.old.sizes.block manager.old.tables batch.now pieces.now generation) result }
    ensures prepared { IfOk result (λ draft. IsPrepared manager.old.sizes.block manager.old.tables batch.now pieces.now draft.prepared) }
    ensures replies { IfOk result (λ draft. draft.replies ≡ draft.prepared.replies) }
    ensures entry { IfOk result (λ draft. draft.entry ≡ Commit batch.now.log batch.now.number generation pieces.now) }
    ensures ready { IfOk result (λ draft. IsReady manager.new draft.prepared) }
    ensures same { SameTables manager.old manager.new }
{
    let prepared = manager.prepare(alloc, batch, pieces, generation)?;
    let Ok(replies) = copy_replies(alloc, prepared.replies.slice()) else {
        return Err(CommitFault::NoMemory);
    };
    let Ok(entry) = entry_of(alloc, batch, pieces, generation) else {
        return Err(CommitFault::NoMemory);
    };
    Ok(Draft {
        prepared,
        replies,
        entry,
    })
}

impl ManagerNode {
    /// Commits a batch, whole or not at all, and answers the replies to its operations, in order, and what became of the blocks
    /// that the cleaner copied. Its pieces have its bytes,
    /// which an opening reads from them; the batch comes from a log that lives, with the number after its last, and its new
    /// pointers and 1 to 4,093 pieces lie within stripes (`may_commit`). The entry is durable when it answers. A journal
    /// without a place for it is checkpointed first.
    ///
    /// It is refused by `Regen`, then `Stale`, then `Worn` exactly as the file manager refuses a batch. `NoMemory` leaves the
    /// tables as they were, and the platter too where the journal had a place, as the other refusals always do. `Stopped`
    /// comes only where a call of the platter failed.
    pub fn commit<B: Bay>(
        &mut self,
        alloc: Global,
        bay: &mut B,
        batch: &Batch,
        pieces: &[Piece],
        generation: u64,
    ) -> Result<Committed, CommitFault>
        requires { MayCommit self.old.manager.sizes self.old.manager.tables batch.now pieces.now }
        ensures told { IsTrue B.tells → (contents : Contents) → NodeStands self.old contents (B.meaning bay.old).now
            → IsBatchIn (joined contents batch.now.log pieces.now) batch.now.log batch.now.number batch.now
            → NodeTold self.old.platter.root.geo self.new contents self.old.manager.tables (folded self.old.manager.sizes.block self.old.manager.tables (Commit batch.now.log batch.now.number generation pieces.now) batch.now) (commit_stopped result) (B.meaning bay.old) (B.meaning bay.new) }
        ensures refused { TellsRefusal (commit_refusal self.old.manager.sizes.block self.old.manager.tables batch.now pieces.now generation) result }
        ensures tables { OnOk result (folded self.old.manager.sizes.block self.old.manager.tables (Commit batch.now.log batch.now.number generation pieces.now) batch.now ≡ Some self.new.manager.tables) }
        ensures replies { IfOk result (λ done. last_in (look batch.now.log.0 self.new.manager.tables.logs) ≡ Some (batch.now.number, done.replies)) }
        ensures copied { IfOk result (λ done. done.copied ≡ copied (moves_of batch.now.ops) self.old.manager.tables.files) }
        ensures rejected { IfOk result (λ done. done.copied + done.rejected ≡ length (moves_of batch.now.ops)) }
        ensures err { OnErr result (SameTables self.old.manager self.new.manager) }
        ensures same { SameSystem self.old self.new }
        ensures entered { OnOk result (IsEntered self.old.manager.tables (Commit batch.now.log batch.now.number generation pieces.now) self.old.platter self.new.platter) }
        ensures placed { OnErr result (IsPlaced self.old.manager.tables self.old.platter self.new.platter) }
        ensures unwritten { (IsErrOf result fault.Stopped → ⊥) → (IsErrOf result fault.NoMemory → ⊥) → OnErr result (bay.new ≡ bay.old) }
        ensures lacking { IsErrOf result fault.NoMemory → HasPlace self.old.platter (32 + 16 * length pieces.now) → bay.new ≡ bay.old }
        ensures written { IsTrue B.tells → HasPlace self.old.platter (32 + 16 * length pieces.now) → OnOk result (HasWritten 0 (writes_at ((B.meaning bay.old).now.seen 0) (4096 + self.old.platter.journal.place)) (B.counts bay.old) (B.counts bay.new)) }
        ensures others { IsTrue B.tells → SparesOthers 0 (B.meaning bay.old) (B.meaning bay.new) }
        ensures touches { Touches B.counts B.follows 0 (pages_of (length (spelling_of_tables self.old.manager.tables)) + 6) (commit_stopped result) bay.old bay.new }
    {
        let Draft {
            prepared,
            replies,
            entry,
        } = drafted(alloc, &mut self.manager, batch, pieces, generation)?;
        let (copied, rejected) = (prepared.copied, prepared.rejected);
        if let Err(fault) = enter(alloc, bay, &self.manager, &mut self.platter, entry) {
            return Err(commit_fault(fault));
        }
        self.manager.apply(prepared);
        Ok(Committed {
            replies,
            copied,
            rejected,
        })
    }
}
