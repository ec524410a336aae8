//! The batch of a client's calls: the new bytes of each block, the operations, their addresses in the log and the
//! requests that store them; and the reply to a read.
#![tactic(auto)]

mod building;
mod draft;
mod drafting;
mod finding;
mod forming;
mod reading;
mod standing;
mod wanting;

pub use forming::form;
pub use reading::{read_file, wanted_by_read};
pub use wanting::wanted_blocks;
