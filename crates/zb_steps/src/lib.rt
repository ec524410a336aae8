//! The steps of a client's work: how it goes on with what a lookup found, and with what a server answered.
#![tactic(auto)]

mod desk;
mod fetching;
mod going;
mod next;
mod storing;

pub use desk::Desk;
pub use going::run_of;
pub use next::Next;
