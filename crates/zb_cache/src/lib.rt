//! The blocks that a client has fetched, under their pointers, as many as were used last.
#![tactic(auto)]

mod cache;
mod laws;

pub use cache::BlockCache;
pub use laws::{a_put_brings_nothing_else, a_use_leaves_what_is_found, what_was_put_is_found};
