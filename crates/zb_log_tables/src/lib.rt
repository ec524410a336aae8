//! The file manager's logs, by number, and its held stripes, by log and stripe, each in one piece of memory with room for
//! more.
#![tactic(auto)]

mod held;
mod loading;
mod log;
mod logs;

pub use held::HeldTable;
pub use log::{Log, ReplyList};
pub use logs::LogTable;
