//! From what a client formed to what soundness asks of it: a batch that rests on current lookups and on the blocks that
//! pointers name is one of its calls, is found behind its flush, and its commit takes the tree to that after them; and a
//! read is answered with the file's bytes. Definitions and their laws alone.
#![tactic(auto)]

mod batches;
mod commits;
mod flushes;
mod lookups;
mod reads;

pub use batches::formed_batches_are_of_updates;
pub use commits::formed_commits_take_the_tree;
pub use flushes::{formed_batches_are_found, formed_batches_may_be_committed};
pub use lookups::lookups_of_a_batch_stay_current;
pub use reads::read_replies_are_the_files;
