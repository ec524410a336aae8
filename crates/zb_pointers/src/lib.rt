//! The files' blocks: versions, lengths, and where each block stands, in memory.
#![tactic(auto)]

mod blocks;
mod head;
mod in_order;
mod kept;
mod loading;
mod looking;
mod pointers;

pub use head::FileHead;
pub use in_order::Files;
pub use pointers::Pointers;
