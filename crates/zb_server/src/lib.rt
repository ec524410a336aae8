//! A storage server: a node that is up with its fragment store, down, or blank.
#![tactic(auto)]

mod answers;
mod server;

pub use server::Server;
