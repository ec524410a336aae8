use crate::ids::{Fid, LogId, Ptr, ServerId};
use crate::lists::{Copied, ItemList};
use crate::memory::{Mem, NoMemory};
use crate::nodes::Members;
use crate::paths::Path;
use std::alloc::Global;
use thiserror::Error;

/// What stands at a path of the tree; a file with its length in bytes.
#[derive(Clone, Copy, PartialEq, Eq)]
pub enum Listed {
    Dir,
    File { fid: Fid, length: u32 },
}

/// A path of the tree, with what stands there.
#[derive(Drop)]
pub struct TreeEntry {
    pub path: Path,
    pub listed: Listed,
}

/// The tree, in order of path bytes.
pub type TreeList = ItemList<TreeEntry>;

/// Blocks of a file by their numbers, with their pointers.
pub type BlockList = ItemList<(u32, Ptr)>;

/// What a lookup finds of a file: version 0 where there is no such file.
#[derive(Drop)]
pub struct Found {
    pub version: u64,
    pub length: u32,
    pub blocks: BlockList,
    pub members: Members,
}

/// A log: whether it lives, its last committed stripe, and the number of its last committed batch, 0 for none.
#[derive(Clone, Copy, PartialEq, Eq)]
pub struct LogUse {
    pub log: LogId,
    pub live: bool,
    pub last: Option<u64>,
    pub batch: u64,
}

/// Logs by number.
pub type LogUseList = ItemList<LogUse>;

/// A held stripe, its committed end in bytes, and the number of the first journal entry that names it.
#[derive(Clone, Copy, PartialEq, Eq)]
pub struct HeldUse {
    pub log: LogId,
    pub stripe: u64,
    pub end: u32,
    pub born: u64,
}

/// Held stripes by log and stripe.
pub type HeldList = ItemList<HeldUse>;

/// What the file manager tells of logs and stripes; `next` is the next log number.
#[derive(Drop)]
pub struct Status {
    pub next: u32,
    pub members: Members,
    pub logs: LogUseList,
    pub held: HeldList,
}

/// Why the file manager doesn't commit a batch.
#[derive(Clone, Copy, Debug, PartialEq, Eq, Error)]
pub enum CommitFault {
    #[error("generation {seen} was seen, and it is {now} now")]
    Regen { seen: u64, now: u64 },
    #[error("version {seen} of file {} was seen, and it is {now} now", fid.0)]
    Stale { fid: Fid, seen: u64, now: u64 },
    #[error("number {field} stands at its last value")]
    Worn { field: u8 },
    #[error("out of memory")]
    NoMemory,
    #[error("the platter stopped")]
    Stopped,
}

/// Why the file manager doesn't retire a stripe.
#[derive(Clone, Copy, Debug, PartialEq, Eq, Error)]
pub enum RetireFault {
    #[error("server {} is mending", server.0)]
    Mending { server: ServerId },
    #[error("{count} pointers name the stripe")]
    Live { count: u64 },
    #[error("entry {entry} since the checkpoint names the stripe")]
    Needed { entry: u64 },
    #[error("number {field} stands at its last value")]
    Worn { field: u8 },
    #[error("out of memory")]
    NoMemory,
    #[error("the platter stopped")]
    Stopped,
}

/// Why membership doesn't change.
#[derive(Clone, Copy, Debug, PartialEq, Eq, Error)]
pub enum MarkFault {
    #[error("server {} doesn't serve either", other.0)]
    Refused { other: ServerId },
    #[error("the generation stands at its last value")]
    Worn,
}

impl Copied for (u32, Ptr) {
    fn copy_all(alloc: Global, items: &[(u32, Ptr)]) -> Mem<Vec<(u32, Ptr)>> {
        Ok(Vec::from_slice(alloc, items)?)
    }
}

impl Copied for LogUse {
    fn copy_all(alloc: Global, items: &[LogUse]) -> Mem<Vec<LogUse>> {
        Ok(Vec::from_slice(alloc, items)?)
    }
}

impl Copied for HeldUse {
    fn copy_all(alloc: Global, items: &[HeldUse]) -> Mem<Vec<HeldUse>> {
        Ok(Vec::from_slice(alloc, items)?)
    }
}

impl Copied for TreeEntry {
    fn copy_all(alloc: Global, items: &[TreeEntry]) -> Mem<Vec<TreeEntry>> {
        let mut copies = Vec::new(alloc);
        for entry in items {
            let path = entry.path.copy(alloc)?;
            copies.push(TreeEntry {
                path,
                listed: entry.listed,
            })?;
        }
        Ok(copies)
    }
}
