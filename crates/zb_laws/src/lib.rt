//! The laws of the report's definitions: what follows of a report that fits a script, and what texts determine.
#![tactic(auto)]

mod laws;

pub use laws::{
    front_fits, front_lines, header_or_none, in_order, no_front, one_reading, one_report, one_run,
    one_spelling, one_stop, rows_agree, rows_fit, same_lines, tails_differ, tells_legal,
    wrong_unfit,
};
