//! The text of a report: each line that answers a line of the script, and the tree.
#![tactic(auto)]

mod calls;
mod events;
mod jobs;
mod report;
mod text;

pub use report::{outcome, tree};
pub use text::{client_into, node_into, number_into, quoted_into, server_into, spaced_into};
