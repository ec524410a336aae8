ghost use Rattle.std.specs.Prelude.{◌≡◌, IfOk};
ghost use Rattle.zb_types.specs.Apply.{is_update, is_bufferable};

use crate::ids::Fid;
use crate::lists::ByteList;
use crate::memory::{Mem, NoMemory};
use crate::paths::{NameList, Path};
use std::alloc::Global;

/// A call of a client. The first seven are updates, the last four are reads.
#[derive(Drop)]
pub enum Call {
    Create(Path),
    Mkdir(Path),
    Remove(Path),
    Rename(Path, Path),
    Write {
        fid: Fid,
        offset: u32,
        bytes: ByteList,
    },
    Truncate {
        fid: Fid,
        length: u32,
    },
    Sync,
    Read {
        fid: Fid,
        offset: u32,
        len: u32,
    },
    /// The names in a directory, or in the root.
    List(Option<Path>),
    Stat(Path),
    /// The number of a file: the script's `open`.
    Find(Path),
}

/// Why the tree refuses a call.
#[derive(Clone, Copy, Debug, PartialEq, Eq)]
pub enum Refusal {
    NoEntry,
    NotDir,
    IsDir,
    Exists,
    Inside,
    NotEmpty,
    Gone,
    TooBig,
    Full,
}

/// The answer to a call.
#[derive(Drop)]
pub enum Reply {
    Done,
    Made(Fid),
    Bytes(ByteList),
    Names(NameList),
    Dir,
    File { fid: Fid, length: u32 },
    Refused(Refusal),
}

fn copy_option(alloc: Global, path: &Option<Path>) -> Mem<Option<Path>>
    ensures { IfOk result (λ copied. copied ≡ path.now) }
{
    match path {
        None => Ok(None),
        Some(path) => Ok(Some(path.copy(alloc)?)),
    }
}

impl Call {
    pub fn copy(&self, alloc: Global) -> Mem<Call>
        ensures { IfOk result (λ call. call ≡ self.now) }
    {
        Ok(match self {
            Call::Create(path) => Call::Create(path.copy(alloc)?),
            Call::Mkdir(path) => Call::Mkdir(path.copy(alloc)?),
            Call::Remove(path) => Call::Remove(path.copy(alloc)?),
            Call::Rename(from, to) => Call::Rename(from.copy(alloc)?, to.copy(alloc)?),
            Call::Write { fid, offset, bytes } => Call::Write {
                fid: *fid,
                offset: *offset,
                bytes: bytes.copy(alloc)?,
            },
            Call::Truncate { fid, length } => Call::Truncate {
                fid: *fid,
                length: *length,
            },
            Call::Sync => Call::Sync,
            Call::Read { fid, offset, len } => Call::Read {
                fid: *fid,
                offset: *offset,
                len: *len,
            },
            Call::List(path) => Call::List(copy_option(alloc, path)?),
            Call::Stat(path) => Call::Stat(path.copy(alloc)?),
            Call::Find(path) => Call::Find(path.copy(alloc)?),
        })
    }

    /// Whether it may change the tree.
    pub fn is_update(&self) -> bool
        ensures { result ≡ is_update self.now }
    {
        !matches!(
            self,
            Call::Read { .. } | Call::List(_) | Call::Stat(_) | Call::Find(_)
        )
    }

    /// Whether a client may keep it and go on: a write or a truncation.
    pub fn is_bufferable(&self) -> bool
        ensures { result ≡ is_bufferable self.now }
    {
        matches!(self, Call::Write { .. } | Call::Truncate { .. })
    }
}

impl Reply {
    pub fn copy(&self, alloc: Global) -> Mem<Reply>
        ensures { IfOk result (λ reply. reply ≡ self.now) }
    {
        Ok(match self {
            Reply::Done => Reply::Done,
            Reply::Made(fid) => Reply::Made(*fid),
            Reply::Bytes(bytes) => Reply::Bytes(bytes.copy(alloc)?),
            Reply::Names(names) => Reply::Names(names.copy(alloc)?),
            Reply::Dir => Reply::Dir,
            Reply::File { fid, length } => Reply::File {
                fid: *fid,
                length: *length,
            },
            Reply::Refused(why) => Reply::Refused(*why),
        })
    }
}
