ghost use Rattle.std.specs.Prelude.{◌≡◌};

use thiserror::Error;
use zb_client::Told;
use zb_log::LogFault;
use zb_types::NoMemory;

/// What a step of a client came to.
#[derive(Drop)]
pub enum Moved {
    /// The client has no work.
    Idle,
    /// Another client holds the file manager, and this step needs it.
    Blocked { holder: u8 },
    /// The step was made, and tells this.
    Told(Told),
}

/// Why a step wasn't made.
#[derive(Clone, Copy, Debug, PartialEq, Eq, Error)]
pub enum Halt {
    #[error("out of memory")]
    NoMemory,
    /// A number that would rise past its last value: 2 is that of the journal's next entry, 3 that of a batch, 4 the version
    /// of a file, and 5 that of a log's stripe.
    #[error("number {field} stands at its last value")]
    Worn { field: u8 },
}

impl From<NoMemory> for Halt {
    ghost use Rattle.std.specs.Prelude.{◌≡◌};
    ghost use Rattle.zb_nodes.specs.declared.answers.Halt.TheVariants.{NoMemory};

    ghost from_gives = { λ _ halt. halt ≡ NoMemory };

    fn from(_: NoMemory) -> Halt {
        Halt::NoMemory
    }
}

/// The field of a log's stripe.
const STRIPE: u8 = 5;

impl From<LogFault> for Halt {
    ghost use Rattle.std.specs.Prelude.{◌≡◌};
    ghost use Rattle.zb_nodes.specs.Halting.{halt_of};

    ghost from_gives = { λ fault halt. halt ≡ halt_of fault };

    fn from(fault: LogFault) -> Halt {
        match fault {
            LogFault::NoMemory => Halt::NoMemory,
            LogFault::Worn => Halt::Worn { field: STRIPE },
        }
    }
}
