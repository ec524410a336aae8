use zb_basis::{Ask, FoundList};
use zb_batch::Batch;
use zb_types::{
    Call, CommitFault, ItemList, MarkFault, Outcome, PieceList, Reply, Request, Response, ServerId,
};

/// What lookups are asked, in order.
pub type AskList = ItemList<Ask>;

/// The replies to the calls of a batch, in order.
pub type ReplyList = ItemList<Reply>;

/// What a lookup is to find.
#[derive(Drop)]
pub enum Lookup {
    /// Versions, lengths and pointers, one for each that is asked. With `hold` the file manager is held first.
    Files { hold: bool, asks: AskList },
    /// The reply to a call that reads names: a list, a stat or an open.
    Names(Call),
}

/// A turn of the file manager.
#[derive(Drop)]
pub enum Turn {
    Lookup(Lookup),
    /// A server didn't answer a store of this generation, and is to be marked as out.
    Mark {
        server: ServerId,
        generation: u64,
    },
    Commit {
        batch: Batch,
        pieces: PieceList,
        generation: u64,
    },
}

/// What the next step of a client wants.
#[derive(Drop)]
pub enum Wish {
    /// Nothing: no call is queued.
    Idle,
    /// A move inside the client.
    Inside,
    /// A request to a server, with its generation.
    Server(ServerId, u64, Request),
    Turn(Turn),
}

/// What comes of a client's wish.
#[derive(Drop)]
pub enum Answer {
    /// The move inside.
    Inside,
    /// A server's response; bit I - 1 of `serving` is set where server I serves after it.
    Server { response: Response, serving: u32 },
    /// What was found, one for each that was asked.
    Found(FoundList),
    /// The reply to a call that reads names.
    Named(Reply),
    /// The server is marked as out; or it needn't be, since the generation has risen, or it serves again or mends.
    Marked,
    NotMarked(MarkFault),
    Committed(ReplyList),
    NotCommitted(CommitFault),
    /// The file manager is down.
    Down,
    /// The file manager stopped in the turn.
    Doubt,
}

/// What a step tells.
#[derive(Drop)]
pub enum Told {
    Nothing,
    /// Lines of the report, in order.
    Lines(ItemList<Outcome>),
}
