ghost use Rattle.std.specs.Prelude.{◌≡◌};
ghost use Rattle.zb_index.specs.declared.faults.IndexFault.TheVariants.{NoMemory as OutOfMemory};

use std::alloc::{AllocError, AllocFailed};
use thiserror::Error;
use zb_types::NoMemory;

/// Why no index is built.
#[derive(Clone, Copy, Debug, PartialEq, Eq, Error)]
pub enum IndexFault {
    /// The first slot that is bad: by its header, or since a lower slot holds its name too. Two parities with
    /// different turns may hold one name, where no third slot does.
    #[error("slot {slot} is bad")]
    Bad { slot: u32 },
    #[error("out of memory")]
    NoMemory,
}

impl From<NoMemory> for IndexFault {
    ghost from_gives = { λ _ fault. fault ≡ OutOfMemory };

    fn from(_: NoMemory) -> IndexFault {
        IndexFault::NoMemory
    }
}

impl From<AllocError> for IndexFault {
    ghost from_gives = { λ _ fault. fault ≡ OutOfMemory };

    fn from(_: AllocError) -> IndexFault {
        IndexFault::NoMemory
    }
}

impl<T: Drop> From<AllocFailed<T>> for IndexFault {
    ghost from_gives = { λ _ fault. fault ≡ OutOfMemory };

    fn from(_: AllocFailed<T>) -> IndexFault {
        IndexFault::NoMemory
    }
}
