//! The cleaner as a machine of single steps, without devices: what its next step wants of the servers or of the file
//! manager, and what an answer makes of it.
#![tactic(auto)]

mod cleaner;
mod fitting;
mod hearing;
mod laws;
mod steps;
mod turned;
mod wishing;

pub use cleaner::Cleaner;
pub use laws::{
    blocks_are_what_stands_at_their_pointers, deltas_move_from_old_pointers,
    strays_alone_are_deleted,
};
pub use steps::{Answer, Told, Turn, Wish};
