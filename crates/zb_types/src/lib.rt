//! The plain values that all crates share, and the definitions of the plain file tree.
#![tactic(auto)]

mod bytes;
mod calls;
mod geometry;
mod history;
mod ids;
mod limits;
mod lines;
mod lists;
mod memory;
mod nodes;
mod paths;
mod requests;
mod tables;

pub use bytes::{bytes_from, bytes_resized, bytes_written};
pub use calls::{Call, Refusal, Reply};
pub use geometry::{BadGeometry, Geometry};
pub use history::{Did, Saw};
pub use ids::{Fid, FragId, LogId, Piece, Ptr, ServerId};
pub use limits::{MAX_FILE, MOST_KEPT};
pub use lines::{Ended, Job, Kind, Line, Mended, Outcome, Pass, Said, Told};
pub use lists::{ByteList, Copied, FragList, ItemList, LenList, PieceList};
pub use memory::{Failed, Mem, NoMemory};
pub use nodes::{Cause, Class, Event, EventAnswer, Members, Node, State};
pub use paths::{Name, NameList, Path};
pub use requests::{Request, Response, StoreFault};
pub use tables::{
    BlockList, CommitFault, Found, HeldList, HeldUse, Listed, LogUse, LogUseList, MarkFault,
    RetireFault, Status, TreeEntry, TreeList,
};
