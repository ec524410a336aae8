//! The slots of a server's platter: what each holds by its header, its reads, and its changes, each of which is whole or none
//! at each moment.
#![tactic(auto)]

mod area;
mod body;
mod header;
mod header_cell;
mod header_list;
mod laws;
mod number;
mod place;
mod range;
mod read_fault;
mod same;
mod share;
mod slot;

pub use area::parity_area;
pub use header::{Header, read_header, spell_header};
pub use header_cell::header_at;
pub use header_list::headers;
pub use laws::{
    a_changed_slot_is_counted, a_slot_depends_on_its_bytes, headers_are_read_back,
    one_slot_holds_a_name, other_names_stay, other_slots_stay, the_newer_parity_counts,
    unheld_names_stand_nowhere,
};
pub use number::{u32_at, u64_at};
pub use place::place_of;
pub use range::{ParityRange, parity_range};
pub use read_fault::ReadFault;
pub use same::stands_at;
pub use share::share_bytes;
pub use slot::{append, free, store, store_parity};
