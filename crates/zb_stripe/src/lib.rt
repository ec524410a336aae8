//! Plans of requests: those that write the stripes of a flush, and those that read the bytes of a pointer.
#![tactic(auto)]

mod flush;
mod parity;
mod progress;
mod read_plan;
mod source;
mod write_plan;

pub use flush::{Flush, Fresh, FreshFlush, FreshList, Part, PartList};
pub use parity::grow_parity;
pub use progress::Phase;
pub use read_plan::{Got, ReadPlan};
pub use write_plan::{Fed, WritePlan};
