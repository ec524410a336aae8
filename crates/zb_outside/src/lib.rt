//! What lies outside of the program: platters that a crash may tear, the script that it takes and the report that it
//! prints.
#![tactic(auto)]

mod bay;
mod counts;
mod fused;
mod laws;
mod lent;
mod outside;
mod synced;

pub use bay::Bay;
pub use counts::raise;
pub use fused::Fused;
pub use laws::beside_a_torn_range;
pub use outside::Outside;
pub use synced::write_synced;
