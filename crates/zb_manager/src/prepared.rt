use crate::work::Work;
use zb_log_tables::ReplyList;
use zb_types::{LogId, PieceList};

/// A batch that can be committed without memory. Its replies go with it into the tables: who needs them behind `apply`
/// copies them before, or takes them from `last`.
#[derive(Drop)]
pub struct Prepared {
    /// The replies to its operations, in order; none for a clean.
    pub replies: ReplyList,
    /// How many blocks the cleaner moves.
    pub copied: u32,
    /// How many blocks it copied in vain.
    pub rejected: u32,
    pub(crate) log: LogId,
    pub(crate) number: u64,
    pub(crate) pieces: PieceList,
    pub(crate) work: Work,
}
