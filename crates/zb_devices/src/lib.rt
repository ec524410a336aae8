//! Devices that are an outside: one in memory, which tells everything, and one over files and streams, which tells nothing.
#![tactic(auto)]

mod calls;
mod device;
mod file_outside;
mod mem_outside;
mod noting;
mod plate;
mod platter_file;
mod streams;
mod unsynced;

pub use file_outside::FileOutside;
pub use mem_outside::MemOutside;
