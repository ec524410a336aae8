ghost use Rattle.std.specs.Prelude.{◌≡◌};
ghost use Rattle.zb_names.specs.declared.faults.NameFault.TheVariants.{NoMemory as OutOfMemory, Refused as RefusedFor};

use std::alloc::{AllocError, AllocFailed};
use thiserror::Error;
use zb_types::{NoMemory, Refusal};

/// Why an operation on names isn't done. Nothing has changed.
#[derive(Clone, Copy, Debug, PartialEq, Eq, Error)]
pub enum NameFault {
    #[error("refused")]
    Refused(Refusal),
    #[error("out of memory")]
    NoMemory,
}

impl From<Refusal> for NameFault {
    ghost from_gives = { λ why fault. fault ≡ RefusedFor why };

    fn from(why: Refusal) -> NameFault {
        NameFault::Refused(why)
    }
}

impl From<NoMemory> for NameFault {
    ghost from_gives = { λ _ fault. fault ≡ OutOfMemory };

    fn from(_: NoMemory) -> NameFault {
        NameFault::NoMemory
    }
}

impl From<AllocError> for NameFault {
    ghost from_gives = { λ _ fault. fault ≡ OutOfMemory };

    fn from(_: AllocError) -> NameFault {
        NameFault::NoMemory
    }
}

impl<T: Drop> From<AllocFailed<T>> for NameFault {
    ghost from_gives = { λ _ fault. fault ≡ OutOfMemory };

    fn from(_: AllocFailed<T>) -> NameFault {
        NameFault::NoMemory
    }
}
