//! What a stripe's fragments are, where they stand, the exclusive or that makes a parity, and the rules by which a server
//! answers.
#![tactic(auto)]

mod names;

pub use names::{MOST_NAMES, names_above};
