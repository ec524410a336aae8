use crate::calls::{Call, Reply};
use crate::ids::{LogId, ServerId};
use crate::nodes::{Cause, Event, EventAnswer, Node};

/// A job of the cleaner or of the mender.
#[derive(Clone, Copy, PartialEq, Eq)]
pub enum Job {
    Clean,
    Rebuild(ServerId),
}

/// What the next step of a client, the cleaner or the mender is.
#[derive(Clone, Copy, PartialEq, Eq)]
pub enum Kind {
    Idle,
    Call,
    Lookup,
    Fetch,
    Store,
    Mark,
    Commit,
    Pick,
    Retire,
    Sweep,
    Delete,
    Begin,
    Fence,
    Wipe,
    Finish,
}

/// A line of a script, behind its header. One with a plus is put into a queue, and isn't waited for.
#[derive(Drop)]
pub enum Line {
    Call { plus: bool, client: u8, call: Call },
    Job { plus: bool, job: Job },
    Steps { actor: Node, count: u32 },
    StepTo { actor: Node, kind: Kind },
    Event(Event),
}

/// What a line of the report says of a call.
#[derive(Drop)]
pub enum Said {
    Reply(Reply),
    Buffered,
    Kept(Cause),
    Failed(Cause),
    Dropped,
    Unfinished(Cause),
}

/// How a pass of the cleaner left its stripe.
#[derive(Clone, Copy, PartialEq, Eq)]
pub enum Ended {
    Retired,
    Needed,
    Mending,
}

/// What a line of the report says of a pass of the cleaner.
#[derive(Clone, Copy, PartialEq, Eq)]
pub enum Pass {
    Nothing,
    Done {
        log: LogId,
        stripe: u64,
        copied: u64,
        rejected: u64,
        end: Ended,
    },
    Failed(Cause),
    Dropped,
}

/// What a line of the report says of a rebuild.
#[derive(Clone, Copy, PartialEq, Eq)]
pub enum Mended {
    Copied(u64),
    Another(ServerId),
    Failed(Cause),
    Server,
    Dropped,
}

/// The event that a line of the report answers. The line of an arm doesn't tell its count.
#[derive(Clone, Copy, PartialEq, Eq)]
pub enum Told {
    Crash(Node),
    Arm(Node),
    Up(Node),
    Lose(ServerId),
    Checkpoint,
}

/// A line of the report that answers a line of the script.
#[derive(Drop)]
pub enum Outcome {
    Call { client: u8, number: u64, said: Said },
    Clean(Pass),
    Rebuild { server: ServerId, end: Mended },
    Event { event: Told, answer: EventAnswer },
}
