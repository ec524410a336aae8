//! That clients end: each step of one leaves it fewer steps to take, what another does adds no more than a constant, and a
//! commit leaves so many fewer that it makes up for that in all. Definitions and their laws alone.
#![tactic(auto)]

mod batches;
mod beside;
mod commits;
mod fetches;
mod inside;
mod lookups;
mod numbers;
mod stores;

pub use batches::fresh_batches_are_committed;
pub use beside::others_leave_steps;
pub use commits::commits_leave_fewer_steps;
pub use fetches::fetches_leave_fewer_steps;
pub use inside::moves_inside_leave_fewer_steps;
pub use lookups::lookups_leave_fewer_steps;
pub use numbers::numbers_rise_slowly;
pub use stores::stores_leave_fewer_steps;
