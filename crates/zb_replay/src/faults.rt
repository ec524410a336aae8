ghost use Rattle.std.specs.Prelude.{◌≡◌};
ghost use Rattle.zb_replay.specs.Answers.{commit_fault as commit_of, retire_fault as retire_of};

use zb_platter::NodeFault;
use zb_types::{CommitFault, RetireFault};

/// What a fault of the node is to a commit.
pub(crate) fn commit_fault(fault: NodeFault) -> CommitFault
    ensures { result ≡ commit_of fault }
{
    match fault {
        NodeFault::Worn { field } => CommitFault::Worn { field },
        NodeFault::NoMemory => CommitFault::NoMemory,
        NodeFault::Stopped => CommitFault::Stopped,
    }
}

/// What a fault of the node is to a retire.
pub(crate) fn retire_fault(fault: NodeFault) -> RetireFault
    ensures { result ≡ retire_of fault }
{
    match fault {
        NodeFault::Worn { field } => RetireFault::Worn { field },
        NodeFault::NoMemory => RetireFault::NoMemory,
        NodeFault::Stopped => RetireFault::Stopped,
    }
}
