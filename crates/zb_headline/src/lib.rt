//! The headline: what a run prints and what its disks recover to at each moment, the reason that each line needs, and
//! what a run comes to where nothing fails.
#![tactic(auto)]

mod laws;

pub use laws::{calm_is_faultless, rows_reasoned, wrong_claims_fail};
