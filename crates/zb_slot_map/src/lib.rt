//! A server's platter as a map of slots under names that changes whole or not at all, for a caller who knows the slots.
#![tactic(auto)]

mod change;
mod find;
mod older;
mod replace;
mod super_cell;
mod wipe;

pub use change::{append_at, free_at, store_at, store_parity_at};
pub use find::find_fence;
pub use older::free_older;
pub use replace::{ParitySlot, replace_parity_at};
pub use super_cell::{fence_at, format_at};
