//! The use of held stripes: how many of their bytes pointers name, kept by notes of the changes, and which of them the
//! cleaner takes by a policy.
#![tactic(auto)]

mod closing;
mod counting;
mod laws;
mod noting;
mod picks;
mod policy;
mod stripe_use;
mod usage;

pub use laws::{
    a_renewed_usage_counts_the_use, counts_give_the_candidates, live_pointers_tell_the_use,
};
pub use picks::{most_dead, oldest};
pub use policy::{Choose, Chooses, Policy};
pub use stripe_use::StripeUse;
pub use usage::Usage;
