//! The nodes of a system: what a step of a client does among them, when they are sound with what they were given and have
//! told, and that they stay so. Definitions and their laws alone.
#![tactic(auto)]

mod first;
mod given;
mod idle;
mod stepping;

pub use first::first_nodes_are_sound;
pub use given::nodes_stay_sound_where_more_is_given;
pub use idle::idle_clients_have_lines;
pub use stepping::steps_leave_nodes_sound;
