//! Servers in memory with stripes, from which the file manager's node reads the batches of its journal.
#![tactic(auto)]

mod asking;
mod fetching;
mod laws;
mod servers;
mod storing;

pub use laws::contents_are_held;
pub use servers::StripeServers;
