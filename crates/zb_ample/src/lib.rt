//! That clients whose calls come one after the other want no space where there is ample: each update is stored once, so the
//! servers have fragments of few stripes. Definitions and their laws alone.
#![tactic(auto)]

mod turns;

pub use turns::{calls_in_turn_find_all_idle, clients_come_in_turn, clients_in_turn_have_space};
