//! What a client has of its next batch, or of its read, step by step: the calls, what was looked up and fetched for
//! them, the bytes of blocks that are written or cut in part, and the batch once it is formed.
#![tactic(auto)]

mod asks;
mod basis;
mod calls;
mod delivering;
mod laws;
mod log_laws;
mod merging;
mod wanting_laws;

pub use asks::{Ask, ask_of, end_of};
pub use basis::{
    Basis, Fetched, FetchedList, Formed, FoundList, Sealed, Setting, readers_out, writers_out,
};
pub use calls::{Numbered, run_length};
pub use delivering::stripe_of;
pub use laws::merged_blocks_are_the_files;
pub use log_laws::what_logs_gave;
pub use merging::{cut_block, written_block};
pub use wanting_laws::wanted_blocks_were_found;
