ghost use Rattle.std.specs.Prelude.{◌≡◌};
ghost use Rattle.zb_slots.specs.declared.read_fault.ReadFault.TheVariants as fault;

use std::alloc::{AllocError, AllocFailed};
use thiserror::Error;
use zb_types::{Failed, NoMemory};

/// Why a read has no answer.
#[derive(Clone, Copy, Debug, PartialEq, Eq, Error)]
pub enum ReadFault {
    #[error("out of memory")]
    NoMemory,
    /// A call of the platter failed.
    #[error("the platter stopped")]
    Stopped,
}

impl From<Failed> for ReadFault {
    ghost from_gives = { λ _ e. e ≡ fault.Stopped };

    fn from(_: Failed) -> Self {
        ReadFault::Stopped
    }
}

impl From<NoMemory> for ReadFault {
    ghost from_gives = { λ _ e. e ≡ fault.NoMemory };

    fn from(_: NoMemory) -> Self {
        ReadFault::NoMemory
    }
}

impl From<AllocError> for ReadFault {
    ghost from_gives = { λ _ e. e ≡ fault.NoMemory };

    fn from(_: AllocError) -> Self {
        ReadFault::NoMemory
    }
}

impl<T: Drop> From<AllocFailed<T>> for ReadFault {
    ghost from_gives = { λ _ e. e ≡ fault.NoMemory };

    fn from(_: AllocFailed<T>) -> Self {
        ReadFault::NoMemory
    }
}
