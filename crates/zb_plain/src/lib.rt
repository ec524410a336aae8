//! Plain servers in memory: each keeps fragments under their names, and answers requests.
#![tactic(auto)]

mod body;
mod delivery;
mod kept;
mod laws;
mod server;
mod servers;

pub use body::Body;
pub use kept::Kept;
pub use laws::{fragments_fit_index, plan_is_carried_out, read_is_answered};
pub use servers::PlainServers;
