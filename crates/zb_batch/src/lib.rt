//! Batches: the operations that a client or the cleaner commits at once, and the one spelling of each batch.
#![tactic(auto, unfolding(crate::specs::Spelling::op_text, crate::specs::Spelling::spelling_of_batch))]

mod batch;
mod checking;
mod copies;
mod header;
mod laws;
mod lengths;
mod op_reading;
mod op_writing;
mod owners;
mod paths;

pub use batch::{Batch, Op, OpList};
pub use laws::{batches_are_prefix_free, batches_have_their_length};
