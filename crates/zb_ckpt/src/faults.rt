ghost use Rattle.std.specs.Prelude.{◌≡◌};
ghost use Rattle.zb_ckpt.specs.declared.faults.CkptFault.TheVariants as fault;

use thiserror::Error;
use zb_types::{Failed, NoMemory};

/// Why there is no checkpoint.
#[derive(Clone, Copy, Debug, PartialEq, Eq, Error)]
pub enum CkptFault {
    /// The root cell has no value, which is field 1, or this is its first wrong field: 1 the letters, 2 the format, 3 the
    /// slot, 4 the sizes of the system, 5 the length, 6 the number of the first entry.
    #[error("field {field} of the root is none of this system")]
    Foreign { field: u8 },
    #[error("out of memory")]
    NoMemory,
    /// A call of the platter failed.
    #[error("the platter stopped")]
    Stopped,
}

impl From<Failed> for CkptFault {
    ghost from_gives = { λ _ e. e ≡ fault.Stopped };

    fn from(_: Failed) -> CkptFault {
        CkptFault::Stopped
    }
}

impl From<std::alloc::AllocError> for CkptFault {
    ghost from_gives = { λ _ e. e ≡ fault.NoMemory };

    fn from(_: std::alloc::AllocError) -> CkptFault {
        CkptFault::NoMemory
    }
}

impl<T: Drop> From<std::alloc::AllocFailed<T>> for CkptFault {
    ghost from_gives = { λ _ e. e ≡ fault.NoMemory };

    fn from(_: std::alloc::AllocFailed<T>) -> CkptFault {
        CkptFault::NoMemory
    }
}

impl From<NoMemory> for CkptFault {
    ghost from_gives = { λ _ e. e ≡ fault.NoMemory };

    fn from(_: NoMemory) -> CkptFault {
        CkptFault::NoMemory
    }
}
