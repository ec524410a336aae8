//! The running of a system: one client's steps until it has no work, with those of another client that it waits for, and
//! a finish; and the report of what is told by then.
#![tactic(auto)]

mod finishing;
mod lines;
mod reports;
mod running;

pub use finishing::finish;
pub use lines::steps_keep_the_line;
pub use reports::{
    reports_begin, reports_end, reports_show, reports_take_calls, reports_take_steps,
};
pub use running::{run_client, step_or_holder, steps_come_nearer};
