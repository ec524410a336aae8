//! That the nodes of a system come to an end: each step leaves the clients fewer steps to take, all together, as long as there
//! are few entries; each call makes one at most; and a client that holds the file manager has work to do, which nobody
//! blocks. Definitions and their laws alone.
#![tactic(auto)]

mod ending;
mod entries;
mod holding;

pub use ending::steps_come_to_an_end;
pub use entries::entries_are_few;
pub use holding::holders_work;
