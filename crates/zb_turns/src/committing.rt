ghost use Rattle.std.specs.Prelude.{◌≡◌, true, is_some, IfOk, OnErr};
ghost use Rattle.zb_types.specs.declared.tables.CommitFault.TheVariants.{Stopped as PlatterStopped};
ghost use Rattle.zb_tables.specs.Taking.{MayCommit, commit_refusal};
ghost use Rattle.zb_manager.specs.Managers.{SameTables};
ghost use Rattle.zb_manager.specs.Seen.{IsPrepared, IsReady};
ghost use Rattle.zb_turns.specs.Turns.{commit_blocker, other_holder, refused, IsCommitted, TellsRefusal};

use crate::holding::other_holder;
use std::alloc::Global;
use thiserror::Error;
use zb_batch::Batch;
use zb_manager::{Manager, Prepared, ReplyList};
use zb_types::{CommitFault, Fid, Mem, NoMemory, Piece, Reply};

/// Why a commit turn doesn't commit. The tables and the holder are as before.
#[derive(Clone, Copy, Debug, PartialEq, Eq, Error)]
pub enum Uncommitted {
    #[error("client {holder} holds")]
    Blocked { holder: u8 },
    /// The members have changed since the batch was flushed.
    #[error("generation {seen} was seen, and it is {now} now")]
    Regen { seen: u64, now: u64 },
    /// A file has changed since it was looked up.
    #[error("version {seen} of file {} was seen, and it is {now} now", fid.0)]
    Stale { fid: Fid, seen: u64, now: u64 },
    #[error("number {field} stands at its last value")]
    Worn { field: u8 },
    #[error("out of memory")]
    NoMemory,
}

/// What refuses a batch, as a turn tells it.
fn refused(fault: CommitFault) -> Uncommitted
    requires { fault ≡ PlatterStopped → ⊥ }
    ensures { result ≡ refused fault }
{
    match fault {
        CommitFault::Regen { seen, now } => Uncommitted::Regen { seen, now },
        CommitFault::Stale { fid, seen, now } => Uncommitted::Stale { fid, seen, now },
        CommitFault::Worn { field } => Uncommitted::Worn { field },
        CommitFault::NoMemory => Uncommitted::NoMemory,
        CommitFault::Stopped => unreachable!(),
    }
}

fn copy_replies(alloc: Global, replies: &[Reply]) -> Mem<ReplyList>
    ensures { IfOk result (λ copied. copied ≡ replies.now) }
{
    let mut copied = ReplyList::new(alloc)?;
    for reply in replies {
        copied.push(reply.copy(alloc)?)?;
    }
    Ok(copied)
}

/// Prepares a batch, and copies its replies.
fn prepare(
    alloc: Global,
    manager: &mut Manager,
    batch: &Batch,
    pieces: &[Piece],
    generation: u64,
) -> Result<(Prepared, ReplyList), Uncommitted>
    requires { MayCommit manager.old.sizes manager.old.tables batch.now pieces.now }
    ensures refused { TellsRefusal (commit_refusal manager.old.sizes.block manager.old.tables batch.now pieces.now generation) result }
    ensures prepared { IfOk result (λ made. IsPrepared manager.old.sizes.block manager.old.tables batch.now pieces.now made.0) }
    ensures replies { IfOk result (λ made. made.1 ≡ made.0.replies) }
    ensures ready { IfOk result (λ made. IsReady manager.new made.0) }
    ensures unblocked { commit_blocker result ≡ None }
    ensures same { SameTables manager.old manager.new }
{
    let prepared = match manager.prepare(alloc, batch, pieces, generation) {
        Ok(prepared) => prepared,
        Err(fault) => return Err(refused(fault)),
    };
    let Ok(replies) = copy_replies(alloc, prepared.replies.slice()) else {
        return Err(Uncommitted::NoMemory);
    };
    Ok((prepared, replies))
}

/// A client's commit, whole or not at all: the replies to the batch's operations, in order. It is blocked exactly where
/// another client holds; then it is refused by `Regen`, `Stale` or `Worn` as the file manager refuses a batch. A client
/// that held doesn't any longer once its batch is committed. Where it isn't, the tables and the holder are as before, and
/// room that was made may stay.
pub fn commit(
    alloc: Global,
    manager: &mut Manager,
    client: u8,
    batch: &Batch,
    pieces: &[Piece],
    generation: u64,
) -> Result<ReplyList, Uncommitted>
    requires { MayCommit manager.old.sizes manager.old.tables batch.now pieces.now }
    ensures blocked { commit_blocker result ≡ other_holder client manager.old.holder }
    ensures refused { TellsRefusal (commit_refusal manager.old.sizes.block manager.old.tables batch.now pieces.now generation) result }
    ensures committed { IfOk result (IsCommitted batch.now pieces.now manager.old manager.new) }
    ensures err { OnErr result (SameTables manager.old manager.new) }
    ensures still { is_some (other_holder client manager.old.holder) ≡ true → manager.new ≡ manager.old }
{
    if let Some(holder) = other_holder(manager, client) {
        return Err(Uncommitted::Blocked { holder });
    }
    let (prepared, replies) = prepare(alloc, manager, batch, pieces, generation)?;
    manager.apply(prepared);
    manager.release();
    Ok(replies)
}
