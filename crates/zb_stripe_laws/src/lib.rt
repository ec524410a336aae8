//! Laws of stripes, as public functions with empty bodies: what the servers hold of a stripe, what the requests of a
//! flush keep of it, and what a read gives while others write.
#![tactic(auto)]

mod holding;
mod planning;
mod reading;
mod remaining;
mod writing;

pub use holding::{
    judged_by_what_is_looked_at, lower_end_holds, more_may_be_away, rebuilt_is_the_parity,
    rebuilt_is_the_share, restored_holds, stripe_is_one_list, whole_stripe_stands,
};
pub use planning::{
    plan_at_work, requests_leave_no_share_empty, requests_leave_other_stripes,
    rising_stripes_differ,
};
pub use reading::{read_gives_bytes, read_goes_on};
pub use remaining::what_is_held_remains;
pub use writing::{part_at_work, part_keeps_stripe, plan_keeps_stripes, stripe_at_work_holds};
