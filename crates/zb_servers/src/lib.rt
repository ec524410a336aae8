//! Storage servers in memory: each keeps fragments under their names in counted slots, has a fence, and answers requests
//! by the rules of a server.
#![tactic(auto)]

mod body;
mod kept;
mod server;
mod servers;

pub use servers::Servers;
