//! A client as a machine of single steps, without devices: what its next step wants of the servers or of the file
//! manager, and what an answer makes of it.
#![tactic(auto)]

mod calling;
mod client;
mod committing;
mod fitting;
mod hearing;
mod lines;
mod steps;
mod unmarked;
mod wishing;

pub use client::Client;
pub use steps::{Answer, AskList, Lookup, ReplyList, Told, Turn, Wish};
