//! That a finish leaves the nodes of a system with nothing to do: a client that is flushed keeps nothing once it is idle; a step
//! tells lines of its client's calls alone, of which none lacks more than space; and where all clients are idle each call that was
//! given has its lines, and the tables show the tree of them. Definitions and their laws alone.
#![tactic(auto)]

mod calls;
mod finishing;
mod seeing;
mod staying;
mod telling;
mod trees;

pub use calls::{calls_are_given, idle_clients_are_done};
pub use finishing::{alone_is_free, finishes_begin, finishes_leave_nothing};
pub use seeing::clients_are_seen;
pub use staying::{idle_clients_stay, others_stay, sizes_stay};
pub use telling::{lines_lack_space_alone, lines_may_stand, lines_name_calls, steps_may_tell};
pub use trees::tables_show_the_tree;
