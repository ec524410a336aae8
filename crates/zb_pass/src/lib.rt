//! What a pass of the cleaner works at: the stripe that it picks, the blocks that it copies and their batch, and the stray
//! fragments that it sweeps.
#![tactic(auto)]

mod copying;
mod fetching;
mod forming;
mod picking;
mod serving;
mod storing;
mod sweeping;
mod turning;
mod work;
mod writer;

pub use work::{BlocksList, BodyList, Cleaning, Copies, Next, Sweeping, Target, Work};
pub use writer::Writer;
