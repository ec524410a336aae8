//! The log of a client or of the cleaner: where the bytes of each batch go, and the bytes of each stripe.
#![tactic(auto)]

mod laws;
mod laying;
mod log;
mod placed;
mod places;
mod sealing;

pub use laws::no_address_twice;
pub use log::LogBuf;
pub use placed::{LogFault, Placed, PtrList};
pub use places::Place;
