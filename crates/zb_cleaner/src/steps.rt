use zb_batch::Batch;
use zb_pass::BodyList;
use zb_types::{
    CommitFault, ItemList, LogId, MarkFault, Members, Outcome, PieceList, Request, Response,
    RetireFault, ServerId, Status,
};

/// A turn of the file manager.
#[derive(Drop)]
pub enum Turn {
    /// The status, and the pointers into every held stripe, by file and block.
    Pick,
    /// The members.
    Lookup,
    /// A server didn't answer a store of this generation, and is to be marked as out.
    Mark {
        server: ServerId,
        generation: u64,
    },
    /// The batch that moves blocks, with its pieces, at a generation.
    Commit {
        batch: Batch,
        pieces: PieceList,
        generation: u64,
    },
    /// The stripe isn't to be held any longer; and the status after that.
    Retire {
        log: LogId,
        stripe: u64,
    },
}

/// What the next step of the cleaner wants.
#[derive(Drop)]
pub enum Wish {
    /// Nothing: there is no job.
    Idle,
    /// A request to a server, with its generation.
    Server(ServerId, u64, Request),
    Turn(Turn),
}

/// What comes of a wish of the cleaner.
#[derive(Drop)]
pub enum Answer {
    /// The status, and the pointers into the held stripes, by file and block.
    Picked { status: Status, live: BodyList },
    /// A server's response; bit I - 1 of `serving` is set where server I serves after it.
    Server { response: Response, serving: u32 },
    /// The members that a lookup showed.
    Seen(Members),
    /// The server is marked as out; or it needn't be, since the generation has risen, or it serves again or mends.
    Marked,
    NotMarked(MarkFault),
    /// The batch is committed: so many blocks were moved, and so many in vain.
    Committed { copied: u64, rejected: u64 },
    NotCommitted(CommitFault),
    /// The stripe isn't held any longer, with the status after that.
    Retired(Status),
    /// The stripe is held still, with the status.
    NotRetired { fault: RetireFault, status: Status },
    /// The file manager is down.
    Down,
    /// The file manager stopped in the turn.
    Doubt,
}

/// What a step tells.
#[derive(Drop)]
pub enum Told {
    Nothing,
    /// Lines of the report, in order.
    Lines(ItemList<Outcome>),
}
