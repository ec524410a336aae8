//! The nodes of a system in memory: clients, the file manager and servers, stepped one row of the step table at a time.
#![tactic(auto)]

mod answers;
mod asking;
mod carrying;
mod committing;
mod hearing;
mod listing;
mod looking;
mod nodes;

pub use answers::{Halt, Moved};
pub use nodes::Nodes;
