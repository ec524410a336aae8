// A device in memory.
use crate::plate::Plate;
use std::alloc::Global;

/// What a call did to its platter.
#[derive(Drop)]
pub enum Change {
    Wrote(usize, Vec<u8>),
    Synced,
    Restarted(u8),
    Blanked,
    Fault,
    WriteFault(usize, usize),
}

/// A device call in the record.
#[derive(Drop)]
pub enum Event {
    Took(usize),
    Printed(Vec<u8>),
    TakeFault,
    PutFault,
    At(usize, Change),
}

/// How often calls of each platter and of each stream failed, and the writes of each platter.
#[derive(Drop)]
pub struct Counts {
    pub faults: [u64; 256],
    pub writes: [u64; 256],
    pub read_faults: u64,
    pub write_faults: u64,
}

/// Platters, a script and a report in memory, with a record of the device calls.
#[derive(Drop)]
pub struct Device {
    pub alloc: Global,
    pub script: Vec<u8>,
    pub taken: usize,
    pub printed: Vec<u8>,
    pub plates: Vec<Plate>,
    pub events: Vec<Event>,
    pub counts: Counts,
    /// How many calls failed for want of memory.
    pub starved: u64,
    /// Whether there was no memory for the record. From then on each call fails.
    pub is_frozen: bool,
}
