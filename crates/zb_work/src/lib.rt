//! What a client works at: what its work is for and has come to, and the old blocks that it wants, from its cache and
//! from the servers.
#![tactic(auto)]

mod blocks;
mod finding;
mod work;

pub use blocks::{ask_for_each, fill, next_missing, no_bytes, put, slots_of};
pub use finding::{fits_batch, fits_read};
pub use work::{
    Aim, Flushed, Step, Task, aim_of, is_commit, look, members_of, put_step, put_task, take_step,
};
