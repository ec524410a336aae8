//! The file manager in memory: names, the files' blocks, logs, held stripes and members, and what a batch does to them,
//! whole or not at all.
#![tactic(auto)]

mod cleaning;
mod drafts;
mod fitting;
mod laws;
mod manager;
mod planning;
mod prepared;
mod reserving;
mod values;
mod work;
mod working;

pub use laws::a_prepared_batch_is_folded;
pub use manager::{Blocked, Manager};
pub use prepared::Prepared;
pub use zb_log_tables::ReplyList;
