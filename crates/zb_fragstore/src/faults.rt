ghost use Rattle.std.specs.Prelude.{◌≡◌};
ghost use Rattle.zb_fragstore.specs.Answers.{or_stopped};

use thiserror::Error;
use zb_types::{Failed, NoMemory, StoreFault};

/// Why a store isn't opened.
#[derive(Clone, Copy, Debug, PartialEq, Eq, Error)]
pub enum OpenFault {
    /// The super cell has no value, or isn't this server's of this system.
    #[error("the platter is no store of this server")]
    Blank,
    /// The first slot that is bad, from 0.
    #[error("slot {slot} is damaged")]
    Damaged { slot: u32 },
    #[error("out of memory")]
    NoMemory,
    /// A call of the platter failed.
    #[error("the platter stopped")]
    Stopped,
}

// What a store answers by what a call of its platter answered.
pub fn or_stopped<T: Drop>(outcome: Result<T, Failed>) -> Result<T, StoreFault>
    ensures { result ≡ or_stopped outcome }
{
    match outcome {
        Ok(value) => Ok(value),
        Err(_) => Err(StoreFault::Stopped),
    }
}

// What a store answers where memory ran out.
pub fn starved(_: NoMemory) -> StoreFault
    ensures { result ≡ StoreFault.NoMemory }
{
    StoreFault::NoMemory
}
