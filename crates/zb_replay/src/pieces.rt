ghost use Rattle.std.specs.Prelude.{◌≡◌, ◌≤◌, ℕ, IsTrue, IsErrOf, IfOk};
ghost use Rattle.zb_outside.specs.Counts.{GoesOn};
ghost use Rattle.zb_outside.specs.Runs.{SparesOthers};
ghost use Rattle.zb_tables.specs.Tables.{Contents};
ghost use Rattle.zb_tables.specs.Replay.{joined};
ghost use Rattle.zb_replay.specs.Opening.{HaveNotAll, LeavesTables};
ghost use Rattle.zb_replay.specs.declared.pieces.OpenFault.TheVariants as opening;
ghost use Rattle.zb_replay.specs.declared.pieces.PiecesFault.TheVariants as fault;

use std::alloc::Global;
use thiserror::Error;
use zb_outside::Bay;
use zb_types::{ByteList, Geometry, LogId, Members, NoMemory, Piece, ServerId};

/// Why the bytes of pieces aren't read.
#[derive(Clone, Copy, Debug, PartialEq, Eq, Error)]
pub enum PiecesFault {
    /// A stripe has fewer bytes than a piece names.
    #[error("bytes of a piece are missing")]
    Missing,
    /// Both servers are needed, and don't serve.
    #[error("servers {} and {} don't serve", a.0, b.0)]
    Unreachable { a: ServerId, b: ServerId },
    #[error("out of memory")]
    NoMemory,
}

/// Why the file manager's node isn't opened.
#[derive(Clone, Copy, Debug, PartialEq, Eq, Error)]
pub enum OpenFault {
    /// The first wrong field of platter 0: 1 to 6 of the root, 7 the checkpoint, 8 an entry of the journal or its batch.
    #[error("field {field} of the platter is none of this system")]
    Foreign { field: u8 },
    /// Both servers are needed for the batch of an entry, and don't serve.
    #[error("servers {} and {} don't serve", a.0, b.0)]
    Unreachable { a: ServerId, b: ServerId },
    #[error("out of memory")]
    NoMemory,
    /// A call of platter 0 failed.
    #[error("the platter stopped")]
    Stopped,
}

impl From<NoMemory> for OpenFault {
    ghost from_gives = { λ _ e. e ≡ opening.NoMemory };

    fn from(_: NoMemory) -> OpenFault {
        OpenFault::NoMemory
    }
}

/// What reads the bytes of a commit's pieces, from wherever the stripes stand.
pub trait ReadPieces<B: Bay> {
    /// The bytes that each stripe of each log has, where the bay tells what its platters hold.
    ghost contents: { Self → B → Contents };

    /// The bytes of the pieces, one behind the other, in a system of these sizes with these members. Platter 0 and the
    /// stripes stay as they are.
    ///
    /// `Missing` comes only where a stripe has fewer bytes than a piece names, and `Unreachable` only where two servers that
    /// are needed don't serve.
    fn read(
        &mut self,
        alloc: Global,
        bay: &mut B,
        geo: &Geometry,
        members: Members,
        log: LogId,
        pieces: &[Piece],
    ) -> Result<ByteList, PiecesFault>
        ensures bytes { IsTrue B.tells → IfOk result (λ bytes. bytes ≡ joined (contents self.old bay.old) log pieces.now) }
        ensures missing { IsTrue B.tells → IsErrOf result fault.Missing → HaveNotAll (contents self.old bay.old) log pieces.now }
        ensures same { IsTrue B.tells → contents self.new bay.new ≡ contents self.old bay.old }
        ensures alone { IsTrue B.tells → LeavesTables (B.meaning bay.old) (B.meaning bay.new) }
        ensures goes_on { GoesOn B.counts B.follows bay.old bay.new };

    /// No call of platter 0 alone changes what stripes have.
    ghost apart: { (s : Self) (a b : B) → IsTrue B.tells → SparesOthers 0 (B.meaning a) (B.meaning b) → contents s b ≡ contents s a };
}
