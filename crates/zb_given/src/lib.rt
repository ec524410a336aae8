//! What was given to a world, calls, jobs and events, each with the point at which it was given, and when its lines fit
//! that, with no word of a script; what a program keeps that gives a script to a world; and from there to the lines of
//! the script, step lines and pluses included. Definitions and their laws alone.
#![tactic(auto)]

mod adds;
mod batches;
mod completing;
mod ends;
mod lifts;
mod loops;
mod queues;
mod stays;
mod worked;

pub use adds::{lines_of_calls_fit, lines_of_others_fit};
pub use batches::several_lines_fit;
pub use completing::completeness_is_that_of_the_script;
pub use ends::{lines_by_subject, turns_go_on};
pub use lifts::{
    ahead_is_ahead_of_the_script, ends_are_those_of_the_script, given_lines_fit_the_script,
    given_lines_tell_a_history, more_may_be_given, steps_stand_anywhere,
};
pub use loops::{loop_begins, loop_goes_from_line_to_line, steps_keep_the_loop};
pub use queues::{calls_are_taken, calls_end, calls_stand, nothing_is_left};
pub use stays::{calls_stay, crashes_come_later, lookups_stay, open_calls_stay};
pub use worked::{rows_are_given, wrong_rows_are_not};
