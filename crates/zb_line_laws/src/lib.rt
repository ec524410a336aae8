//! What the steps of a client's machine tell fits what the client was given, and its calls stay those. Definitions and
//! their laws alone.
#![tactic(auto)]

mod answered;
mod beside;
mod given_up;
mod owned;
mod replied;
mod taken;

pub use answered::read_replies_fit;
pub use beside::calls_stay_with_clients;
pub use given_up::given_up_calls_fit;
pub use owned::lines_are_the_clients_own;
pub use replied::replied_batches_fit;
pub use taken::taken_calls_fit;
