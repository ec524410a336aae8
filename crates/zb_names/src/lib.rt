//! The names of a file tree: what stands at each path, in memory.
#![tactic(auto)]

mod comparing;
mod entries;
mod faults;
mod listing;
mod loading;
mod looking;
mod moving;
mod names;
mod prepared;
mod refusing;

pub use entries::Entry;
pub use faults::NameFault;
pub use names::Names;
pub use prepared::Prepared;
