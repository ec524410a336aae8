use zb_types::{Did, Saw};

/// What was done and what was seen, each in order.
#[derive(Drop)]
pub struct History {
    pub updates: Vec<Did>,
    pub reads: Vec<Saw>,
}
