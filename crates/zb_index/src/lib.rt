//! The index of a server's slots in memory: where each fragment stands, by its name, and which slots are free.
#![tactic(auto)]

mod build;
mod faults;
mod free;
mod holders;
mod index;
mod laws;
mod spot;

pub use build::{Built, SlotList};
pub use faults::IndexFault;
pub use index::Index;
pub use laws::{
    an_index_depends_on_its_slots, free_slots_are_counted, free_slots_are_free,
    names_are_held_once, what_is_found_is_held, what_is_not_found_is_not_held,
};
pub use spot::{Renewed, Spot};
