//! The file manager's node: its tables in memory, each change of which is durable on platter 0 before it is answered.
#![tactic(auto)]

mod committing;
mod entering;
mod faults;
mod laws;
mod node;
mod opening;
mod pieces;
mod retiring;
mod starting;
mod taking;

pub use committing::Committed;
pub use laws::a_platter_with_tables_is_wrong_nowhere;
pub use node::ManagerNode;
pub use opening::{first_manager, replay};
pub use pieces::{OpenFault, PiecesFault, ReadPieces};
pub use zb_manager::ReplyList;
pub use zb_platter::NodeFault;
