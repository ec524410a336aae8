use std::alloc::AllocError;
use zb_types::{Failed, NoMemory};
use zb_world::Halt;

// The exit statuses of the program.
/// The script was read to its end.
pub const DONE: u8 = 0;
/// A line of the script isn't one of the language.
pub const BAD_SCRIPT: u8 = 2;
/// The script couldn't be read.
pub const READ_FAULT: u8 = 3;
/// The report couldn't be written.
pub const WRITE_FAULT: u8 = 4;
/// The words aren't those of a command.
pub const USAGE: u8 = 5;
/// Memory ran out.
pub const NO_MEMORY: u8 = 6;
/// An update is unfinished at the end of the script.
pub const UNFINISHED: u8 = 7;
/// A line of the script has a form that the program doesn't run so far.
pub const LATER: u8 = 10;

/// Why a run ends before its script does.
#[derive(Clone, Copy, Debug, PartialEq, Eq)]
pub enum Halted {
    Memory,
    ReadFault,
    WriteFault,
}

impl From<NoMemory> for Halted {
    ghost use Rattle.std.specs.Prelude.{◌≡◌};
    ghost use Rattle.zebra.specs.declared.ending.Halted.TheVariants.{Memory};

    ghost from_gives = { λ _ e. e ≡ Memory };

    fn from(_: NoMemory) -> Halted {
        Halted::Memory
    }
}

impl From<AllocError> for Halted {
    ghost use Rattle.std.specs.Prelude.{◌≡◌};
    ghost use Rattle.zebra.specs.declared.ending.Halted.TheVariants.{Memory};

    ghost from_gives = { λ _ e. e ≡ Memory };

    fn from(_: AllocError) -> Halted {
        Halted::Memory
    }
}

// A world breaks off for want of memory alone: no run has as many calls as a number can count.
impl From<Halt> for Halted {
    ghost use Rattle.std.specs.Prelude.{◌≡◌};
    ghost use Rattle.zebra.specs.declared.ending.Halted.TheVariants.{Memory};

    ghost from_gives = { λ _ e. e ≡ Memory };

    fn from(halt: Halt) -> Halted {
        match halt {
            Halt::NoMemory | Halt::Worn { .. } => Halted::Memory,
        }
    }
}

// What is printed fails here; a failed take is told by what accepts it.
impl From<Failed> for Halted {
    ghost use Rattle.std.specs.Prelude.{◌≡◌};
    ghost use Rattle.zebra.specs.declared.ending.Halted.TheVariants.{WriteFault};

    ghost from_gives = { λ _ e. e ≡ WriteFault };

    fn from(_: Failed) -> Halted {
        Halted::WriteFault
    }
}
