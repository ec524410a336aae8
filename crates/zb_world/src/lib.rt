//! The world: all nodes of a system with the outside that they stand on, the calls that they were given, and the lines that
//! answer them.
#![tactic(auto)]

mod world;

pub use world::{StartFault, World};
pub use zb_course::Step;
pub use zb_nodes::Halt;
