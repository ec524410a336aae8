ghost use Rattle.std.specs.Prelude.{◌≡◌};
ghost use Rattle.zb_tables.specs.Fold.{marked, following};
ghost use Rattle.zb_log_tables.specs.Logs.{state_of};

use zb_types::{ItemList, Reply};

/// Replies, in the order of the operations.
pub type ReplyList = ItemList<Reply>;

/// A log as the tables have it.
#[derive(Drop)]
pub struct Log {
    pub number: u32,
    /// Whose it is: a client from 1 to 8, or 0 for the cleaner.
    pub owner: u8,
    pub live: bool,
    /// The number of its last committed batch, 0 for none.
    pub batch: u64,
    /// The replies of that batch.
    pub replies: ReplyList,
    /// Its last committed stripe.
    pub last: Option<u64>,
    /// The least stripe in which it may commit.
    pub mark: u64,
}
