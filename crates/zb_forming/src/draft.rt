use zb_types::{ByteList, Fid, ItemList, Ptr};

/// Where a block stands: nowhere, where a lookup found it, or at this place among the new blocks of its batch.
#[derive(Clone, Copy, Debug, PartialEq, Eq)]
pub(crate) enum Was {
    Hole,
    Stored(Ptr),
    New(usize),
}

/// A block that an operation makes anew: its number, where it stood before, and its place among the new blocks of the
/// batch.
#[derive(Clone, Copy, Debug, PartialEq, Eq)]
pub(crate) struct Change {
    pub(crate) block: u32,
    pub(crate) was: Was,
    pub(crate) place: usize,
}

/// Changes of blocks one behind the other.
pub(crate) type ChangeList = ItemList<Change>;

/// An operation whose new blocks have no addresses yet.
#[derive(Drop)]
pub(crate) struct Draft {
    pub(crate) fid: Fid,
    /// The version of the file before the operation, 0 where there is none.
    pub(crate) version: u64,
    /// Whether the operation is carried out on a file, and so raises its version.
    pub(crate) done: bool,
    /// The blocks from this number on are dropped, where the operation is a truncation.
    pub(crate) left: Option<u64>,
    /// The first block that it makes anew.
    pub(crate) first: u32,
    pub(crate) changes: ChangeList,
}

/// Operations whose new blocks have no addresses yet.
pub(crate) type DraftList = ItemList<Draft>;

/// A batch whose blocks have no addresses yet.
#[derive(Drop)]
pub(crate) struct Drafts {
    pub(crate) drafts: DraftList,
    pub(crate) blocks: ItemList<ByteList>,
}
