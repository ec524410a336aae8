//! Numbers of two, four and eight bytes, the highest byte first, in the bytes of a format.
#![tactic(auto, unfolding(crate::specs::Numbers::number_text))]

mod laws;
mod reading;
mod writing;

pub use laws::numbers_are_prefix_free;
pub use reading::{are_zeros, split_u16, split_u32, split_u64};
pub use writing::{append, push_u16, push_u32, push_u64};
