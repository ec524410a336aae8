ghost use Rattle.std.specs.Prelude.{◌≡◌, false, None, IfOk, IfErr, OnErr};
ghost use Rattle.zb_manager.specs.Managers.{SameTables};
ghost use Rattle.zb_servers.specs.Standing.{SeenServers};
ghost use Rattle.zb_turns.specs.Turns.{other_holder};
ghost use Rattle.zb_client.specs.Telling.{Heard};
ghost use Rattle.zb_nodes.specs.Among.{MayStep};
ghost use Rattle.zb_nodes.specs.Halting.{CommitWears, OnWorn, behind_of, is_blocked};
ghost use Rattle.zb_nodes.specs.Moving.{DoesNext};
ghost use Rattle.zb_nodes.specs.Wished.{IsAtCommit};

use crate::answers::Halt;
use crate::hearing::hear;
use std::alloc::Global;
use zb_batch::Batch;
use zb_client::{Answer, Client, Told};
use zb_manager::Manager;
use zb_turns::{Uncommitted, commit};
use zb_types::{CommitFault, Piece};

/// What a batch is behind, or else why its client halts.
fn behind(why: Uncommitted) -> Result<CommitFault, Halt>
    requires { is_blocked why ≡ false }
    ensures { result ≡ behind_of why }
{
    match why {
        Uncommitted::Regen { seen, now } => Ok(CommitFault::Regen { seen, now }),
        Uncommitted::Stale { fid, seen, now } => Ok(CommitFault::Stale { fid, seen, now }),
        Uncommitted::Worn { field } => Err(Halt::Worn { field }),
        Uncommitted::NoMemory => Err(Halt::NoMemory),
        Uncommitted::Blocked { .. } => unreachable!(),
    }
}

/// A client's batch is committed, or is behind and isn't. After an error client and tables are as before.
pub(crate) fn ask_commit(
    alloc: Global,
    client: &mut Client,
    manager: &mut Manager,
    number: u8,
    batch: &Batch,
    pieces: &[Piece],
    generation: u64,
) -> Result<Told, Halt>
    requires may { (s : SeenServers) × MayStep manager.old s client.old }
    requires at { IsAtCommit client.old batch.now pieces.now generation }
    requires number { client.old.client ≡ number }
    requires unblocked { other_holder number manager.old.holder ≡ None }
    ensures told { IfOk result (λ told. (s : SeenServers)
        → DoesNext manager.old s client.old manager.new s (record { client = client.new; told = told })) }
    ensures client { OnErr result (client.new ≡ client.old) }
    ensures manager { OnErr result (SameTables manager.old manager.new) }
    ensures cause { IfErr result (OnWorn (CommitWears manager.old client.old)) }
{
    match commit(alloc, manager, number, batch, pieces, generation) {
        Ok(replies) => hear(alloc, client, Answer::Committed(replies)),
        Err(why) => {
            let fault = behind(why)?;
            hear(alloc, client, Answer::NotCommitted(fault))
        }
    }
}
