//! How many stripes a client's log begins: a batch of calls adds at most the weight of its calls to the log, at least half of
//! the room of the stripes that are begun is put to use, and so they are at most as many as the calls need. Definitions
//! and their laws alone.
#![tactic(auto)]

mod batches;
mod needs;
mod placing;

pub use batches::{formed_batches_keep_logs_half_full, formed_batches_keep_within_weight};
pub use needs::half_full_logs_begin_few_stripes;
pub use placing::placing_keeps_logs_half_full;
