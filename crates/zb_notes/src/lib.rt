//! The notes of batches: which pointers they set, and which bytes nothing names any longer or ever, so that the use of
//! stripes is kept without looking at all files.
#![tactic(auto)]

mod laws;

pub use laws::{counts_stay_the_use, notes_add_up, notes_tell_the_use};
