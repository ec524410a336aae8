//! A cell of 128 bytes that holds 40, and that changes from one value to the next with none between.
#![tactic(auto)]

mod cell;
mod laws;

pub use cell::{CellFault, following, get, set};
pub use laws::cell_depends_on_its_bytes;
