//! The course of a system: its nodes in memory, the ledger of their calls, and the text of the lines that they told.
#![tactic(auto)]

mod course;
mod laws;
mod lines;
mod step;

pub use course::{Course, MOST_CALLS};
pub use laws::{courses_begin, courses_take_calls, courses_take_steps, courses_tell_their_rest};
pub use lines::Untold;
pub use step::Step;
