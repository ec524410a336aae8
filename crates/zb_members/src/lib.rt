//! The members of a system: at most one server is out or is mended, and all others serve where one is set so.
#![tactic(auto)]

mod change;

pub use change::{begin_mend, finish_mend, mark_out};
