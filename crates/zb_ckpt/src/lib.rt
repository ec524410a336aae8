//! The checkpoint of the file manager: bytes in one of two slots on platter 0, and the root cell that names the slot. At each
//! moment of a write it is the former with its root, or the new one.
#![tactic(auto)]

mod checkpoint;
mod faults;
mod filling;
mod laws;
mod numbers;
mod reading;
mod root;

pub use checkpoint::{read, write};
pub use faults::CkptFault;
pub use laws::{
    a_checkpoint_depends_on_its_cell_and_pages, an_image_is_foreign_in_one_field,
    an_image_says_one_checkpoint,
};
pub use root::Root;
