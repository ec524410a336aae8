ghost use Rattle.std.specs.Prelude.{◌≡◌, IfOk};

use crate::ids::FragId;
use crate::lists::{ByteList, FragList, LenList};
use crate::memory::{Mem, NoMemory};
use crate::nodes::Class;
use std::alloc::Global;
use thiserror::Error;

/// What is asked of a storage server.
#[derive(Drop)]
pub enum Request {
    Store {
        id: FragId,
        bytes: ByteList,
        class: Class,
    },
    Append {
        id: FragId,
        place: u32,
        bytes: ByteList,
    },
    /// Stores the parity of a stripe, or replaces it: the length that it covers of each share, and its bytes.
    Parity {
        id: FragId,
        lengths: LenList,
        bytes: ByteList,
        class: Class,
    },
    Retrieve {
        id: FragId,
        place: u32,
        len: u32,
    },
    Delete {
        id: FragId,
    },
    /// The least 256 names of fragments above this one.
    Identify {
        after: Option<FragId>,
    },
    Fence {
        generation: u64,
    },
}

/// Why a storage server refuses a request.
#[derive(Clone, Copy, Debug, PartialEq, Eq, Error)]
pub enum StoreFault {
    #[error("no such fragment")]
    NoFragment,
    #[error("the fragment exists")]
    Exists,
    #[error("the fragment has {len} bytes")]
    Offset { len: u32 },
    #[error("the fragment has only {len} bytes")]
    Short { len: u32 },
    #[error("{free} slots are free")]
    NoSlot { free: u32 },
    #[error("the platter stopped")]
    Stopped,
    #[error("the fence is at generation {now}")]
    OldGeneration { now: u64 },
    #[error("out of memory")]
    NoMemory,
}

/// What a storage server answers.
#[derive(Drop)]
pub enum Response {
    Done,
    Bytes(ByteList),
    Parity { lengths: LenList, bytes: ByteList },
    Ids(FragList),
    Refused(StoreFault),
    Down,
    Blank,
}

impl Request {
    pub fn copy(&self, alloc: Global) -> Mem<Request>
        ensures { IfOk result (λ request. request ≡ self.now) }
    {
        Ok(match self {
            Request::Store { id, bytes, class } => Request::Store {
                id: *id,
                bytes: bytes.copy(alloc)?,
                class: *class,
            },
            Request::Append { id, place, bytes } => Request::Append {
                id: *id,
                place: *place,
                bytes: bytes.copy(alloc)?,
            },
            Request::Parity {
                id,
                lengths,
                bytes,
                class,
            } => Request::Parity {
                id: *id,
                lengths: lengths.copy(alloc)?,
                bytes: bytes.copy(alloc)?,
                class: *class,
            },
            Request::Retrieve { id, place, len } => Request::Retrieve {
                id: *id,
                place: *place,
                len: *len,
            },
            Request::Delete { id } => Request::Delete { id: *id },
            Request::Identify { after } => Request::Identify { after: *after },
            Request::Fence { generation } => Request::Fence {
                generation: *generation,
            },
        })
    }
}

impl Response {
    pub fn copy(&self, alloc: Global) -> Mem<Response>
        ensures { IfOk result (λ response. response ≡ self.now) }
    {
        Ok(match self {
            Response::Done => Response::Done,
            Response::Bytes(bytes) => Response::Bytes(bytes.copy(alloc)?),
            Response::Parity { lengths, bytes } => Response::Parity {
                lengths: lengths.copy(alloc)?,
                bytes: bytes.copy(alloc)?,
            },
            Response::Ids(names) => Response::Ids(names.copy(alloc)?),
            Response::Refused(why) => Response::Refused(*why),
            Response::Down => Response::Down,
            Response::Blank => Response::Blank,
        })
    }
}
