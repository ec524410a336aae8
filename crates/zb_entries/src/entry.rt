ghost use Rattle.std.specs.Prelude.{◌≡◌, IfOk};

use std::alloc::Global;
use zb_types::{LogId, Mem, Members, PieceList};

/// What the journal tells of a change of the file manager's tables.
#[derive(Drop)]
pub enum Entry {
    /// A log is given to an owner, 0 for the cleaner and else a client; the owner's former log ends.
    Attach {
        owner: u8,
        log: LogId,
    },
    /// A batch of a log is taken. Its bytes are those of the pieces, one behind the other, and they were flushed under
    /// the members of this generation.
    Commit {
        log: LogId,
        batch: u64,
        generation: u64,
        pieces: PieceList,
    },
    /// The members change.
    Mark {
        members: Members,
    },
    /// A stripe that no pointer names is given up.
    Retire {
        log: LogId,
        stripe: u64,
    },
}

impl Entry {
    /// The same entry once more.
    pub fn copy(&self, alloc: Global) -> Mem<Entry>
        ensures { IfOk result (λ made. made ≡ self.now) }
    {
        Ok(match self {
            Entry::Attach { owner, log } => Entry::Attach {
                owner: *owner,
                log: *log,
            },
            Entry::Commit {
                log,
                batch,
                generation,
                pieces,
            } => Entry::Commit {
                log: *log,
                batch: *batch,
                generation: *generation,
                pieces: pieces.copy(alloc)?,
            },
            Entry::Mark { members } => Entry::Mark { members: *members },
            Entry::Retire { log, stripe } => Entry::Retire {
                log: *log,
                stripe: *stripe,
            },
        })
    }
}
