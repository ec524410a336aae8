//! The plain file tree as a value, and the history of what was done to it: the reference for all other crates.
#![tactic(auto)]

mod history;
mod tree;

pub use history::History;
pub use tree::Tree;
pub use zb_types::{Did, Saw};
