ghost use Rattle.std.specs.Prelude.{◌≡◌};
ghost use Rattle.zb_platter.specs.declared.faults.NodeFault.TheVariants as fault;
ghost use Rattle.zb_platter.specs.declared.faults.ReadFault.TheVariants as reading;

use thiserror::Error;
use zb_types::{Failed, NoMemory};

/// Why the tables on platter 0 don't change.
#[derive(Clone, Copy, Debug, PartialEq, Eq, Error)]
pub enum NodeFault {
    /// A number stands at its last value: 1 that of the next log, 2 that of the journal's next entry, 4 the generation of
    /// the members.
    #[error("number {field} stands at its last value")]
    Worn { field: u8 },
    #[error("out of memory")]
    NoMemory,
    /// A call of the platter failed.
    #[error("the platter stopped")]
    Stopped,
}

/// Why no tables are read from platter 0.
#[derive(Clone, Copy, Debug, PartialEq, Eq, Error)]
pub enum ReadFault {
    /// The first wrong field: 1 to 6 of the root, and 8 where an entry of the journal is bad.
    #[error("field {field} of the platter is none of this system")]
    Foreign { field: u8 },
    #[error("out of memory")]
    NoMemory,
    /// A call of the platter failed.
    #[error("the platter stopped")]
    Stopped,
}

impl From<Failed> for NodeFault {
    ghost from_gives = { λ _ e. e ≡ fault.Stopped };

    fn from(_: Failed) -> NodeFault {
        NodeFault::Stopped
    }
}

impl From<std::alloc::AllocError> for NodeFault {
    ghost from_gives = { λ _ e. e ≡ fault.NoMemory };

    fn from(_: std::alloc::AllocError) -> NodeFault {
        NodeFault::NoMemory
    }
}

impl<T: Drop> From<std::alloc::AllocFailed<T>> for NodeFault {
    ghost from_gives = { λ _ e. e ≡ fault.NoMemory };

    fn from(_: std::alloc::AllocFailed<T>) -> NodeFault {
        NodeFault::NoMemory
    }
}

impl From<NoMemory> for NodeFault {
    ghost from_gives = { λ _ e. e ≡ fault.NoMemory };

    fn from(_: NoMemory) -> NodeFault {
        NodeFault::NoMemory
    }
}
