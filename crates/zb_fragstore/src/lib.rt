//! The fragment store of a server: a map from names to fragments, with a fence, that changes whole or not at all at each
//! moment, whatever a crash leaves of its platter.
#![tactic(auto)]

mod append;
mod change;
mod faults;
mod laws;
mod open;
mod replace_parity;
mod retrieve;
mod slots;
mod store;

pub use faults::OpenFault;
pub use laws::{
    a_fence_is_one, all_are_named, an_image_is_whole, an_own_image_opens, free_slots_are_known,
    names_are_known, room_for_all,
};
pub use store::FragStore;
