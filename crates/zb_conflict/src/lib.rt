//! The conflict table: what becomes of a block that a client or the cleaner has written, by what the tables have for it
//! by then.
#![tactic(auto)]

mod decision;
mod laws;

pub use decision::{Decision, decide};
pub use laws::table_moves_blocks;
