//! The file manager's platter: the checkpoint of its tables, and the journal's entries behind it. At each moment of a change
//! it says the tables before or those after.
#![tactic(auto)]

mod faults;
mod formatting;
mod laws;
mod naming;
mod platter;
mod restoring;

pub use faults::{NodeFault, ReadFault};
pub use formatting::format;
pub use laws::{an_image_says_one_value, no_entry_names_a_stripe};
pub use naming::first_naming;
pub use platter::ManagerPlatter;
pub use restoring::{read_behind, read_root};
