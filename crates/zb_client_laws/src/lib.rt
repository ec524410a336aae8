//! What is true of a client in a sound world, over plain values, and what each of its steps, and each step of another,
//! leaves of it. Definitions and their laws alone.
#![tactic(auto)]

mod beside;
mod commits;
mod fetches;
mod inside;
mod lookups;
mod stores;
mod together;

pub use beside::clients_stay_sound;
pub use commits::commits_are_sound;
pub use fetches::fetches_are_sound;
pub use inside::moves_inside_are_sound;
pub use lookups::lookups_are_sound;
pub use stores::stores_are_sound;
pub use together::clients_stay_sound_together;
