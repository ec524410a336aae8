//! The turns of the file manager for a client: what it looks up, what names answer, and what is committed.
#![tactic(auto)]

mod committing;
mod holding;
mod laws;
mod looking;
mod naming;

pub use committing::{Uncommitted, commit};
pub use holding::give_up;
pub use laws::{each_operation_is_replied, lookups_find_what_is_asked};
pub use looking::look_up;
pub use naming::{answer_names, reads_names};
