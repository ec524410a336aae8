use crate::head::Head;
use zb_log_tables::Log;
use zb_names::Entry;
use zb_pointers::FileHead;
use zb_types::{Fid, HeldUse, Path, Ptr};

/// A file as it is read, with its blocks.
#[derive(Drop)]
pub(crate) struct FileRow {
    pub(crate) fid: Fid,
    pub(crate) head: FileHead,
    pub(crate) blocks: Vec<(u32, Ptr)>,
}

/// What is read, in the order in which it stands.
#[derive(Drop)]
pub(crate) struct Rows {
    pub(crate) head: Head,
    pub(crate) names: Vec<(Path, Entry)>,
    pub(crate) files: Vec<FileRow>,
    pub(crate) logs: Vec<Log>,
    pub(crate) held: Vec<HeldUse>,
}
