//! The entries of the file manager's journal, as plain values.
#![tactic(auto)]

mod entry;

pub use entry::Entry;
