ghost use Rattle.std.specs.Prelude.{◌≡◌};
ghost use Rattle.zb_log.specs.declared.placed.LogFault.TheVariants.{NoMemory as OutOfMemory};

use crate::places::Place;
use std::alloc::{AllocError, AllocFailed};
use thiserror::Error;
use zb_types::{ItemList, NoMemory, PieceList, Ptr};

/// Pointers of blocks, in order.
pub type PtrList = ItemList<Ptr>;

/// Where a batch lies: its pieces, one a stripe, the pointer of each block, and the place behind it.
#[derive(Drop)]
pub struct Placed {
    pub pieces: PieceList,
    pub ptrs: PtrList,
    pub next: Place,
}

/// Why a log places no batch.
#[derive(Clone, Copy, Debug, PartialEq, Eq, Error)]
pub enum LogFault {
    /// Memory ran out. Nothing has changed.
    #[error("out of memory")]
    NoMemory,
    /// The batch doesn't fit into the stripes up to the last, 2 ^ 48.
    #[error("the log has no stripe left")]
    Worn,
}

impl From<NoMemory> for LogFault {
    ghost from_gives = { λ _ fault. fault ≡ OutOfMemory };

    fn from(_: NoMemory) -> LogFault {
        LogFault::NoMemory
    }
}

impl From<AllocError> for LogFault {
    ghost from_gives = { λ _ fault. fault ≡ OutOfMemory };

    fn from(_: AllocError) -> LogFault {
        LogFault::NoMemory
    }
}

impl<T: Drop> From<AllocFailed<T>> for LogFault {
    ghost from_gives = { λ _ fault. fault ≡ OutOfMemory };

    fn from(_: AllocFailed<T>) -> LogFault {
        LogFault::NoMemory
    }
}
