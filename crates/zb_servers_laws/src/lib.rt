//! Laws of what servers answer to the requests of plans, by the rules of a server alone.
#![tactic(auto)]

mod laws;

pub use laws::{clients_leave_slots, fragments_fit_index, read_is_answered, write_is_answered};
