//! Deltas: what a batch changes of the blocks of files, and the one spelling of each.
#![tactic(auto, unfolding(crate::specs::Spelling::spelling_of_delta))]

mod delta;
mod laws;
mod reading;
mod writing;

pub use delta::{Body, Delta, DeltaList};
pub use laws::{deltas_are_prefix_free, deltas_have_one_length};
