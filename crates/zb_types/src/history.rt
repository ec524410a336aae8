use crate::calls::{Call, Reply};

/// An update that was answered: call `number` of client `client`, each from 1.
#[derive(Drop)]
pub struct Did {
    pub client: u8,
    pub number: u64,
    pub call: Call,
    pub reply: Reply,
}

/// A read that was answered for the tree after the first `seen` updates.
#[derive(Drop)]
pub struct Saw {
    pub client: u8,
    pub number: u64,
    pub seen: u64,
    pub call: Call,
    pub reply: Reply,
}
