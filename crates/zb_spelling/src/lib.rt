//! The bytes of the file manager's tables in a checkpoint: each value has one spelling, and what isn't one is refused.
#![tactic(auto, unfolding(crate::specs::Spelling::spelling_of_tables))]

mod building;
mod files;
mod head;
mod laws;
mod limits;
mod listed;
mod logs;
mod names;
mod parts;
mod reading;
mod replies;
mod rising;
mod rows;
mod writing;

pub use laws::checkpoints_have_one_spelling;
pub use limits::{is_pointer, stripe_room};
pub use parts::{Numbers, Parts};
pub use reading::read;
pub use writing::write;
