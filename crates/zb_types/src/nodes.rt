use crate::ids::ServerId;

/// A node of the system.
#[derive(Clone, Copy, PartialEq, Eq)]
pub enum Node {
    Server(u8),
    Client(u8),
    Manager,
    Cleaner,
    Mender,
}

/// Whether all servers take part, or which one doesn't.
#[derive(Clone, Copy, PartialEq, Eq)]
pub enum State {
    Whole,
    Out(ServerId),
    Mending(ServerId),
}

/// Membership with its generation, from 1.
#[derive(Clone, Copy, PartialEq, Eq)]
pub struct Members {
    pub state: State,
    pub generation: u64,
}

/// Who asks for a slot: a client leaves some free for the cleaner and the mender.
#[derive(Clone, Copy, PartialEq, Eq)]
pub enum Class {
    Client,
    Cleaner,
}

/// Why a call or a job can't go on.
#[derive(Clone, Copy, PartialEq, Eq)]
pub enum Cause {
    Unreachable { a: ServerId, b: ServerId },
    Down,
    NoSpace { server: ServerId },
}

/// What befalls a node, or is asked of the whole system.
#[derive(Clone, Copy, PartialEq, Eq)]
pub enum Event {
    Crash(Node),
    /// The platter of a server or of the file manager stops at its write with this number, from 1.
    Arm(Node, u64),
    Up(Node),
    Lose(ServerId),
    Checkpoint,
}

/// What an event came to.
#[derive(Clone, Copy, PartialEq, Eq)]
pub enum EventAnswer {
    Done,
    Down(Node),
    ManagerDown,
    Up(Node),
    Blank(ServerId),
    Out(ServerId),
    Another(ServerId),
    Unreachable { a: ServerId, b: ServerId },
    Stopped(Node),
}
