//! The journal of the file manager: entries one behind the other on platter 0, which at each moment are those before an
//! append, or with its entry.
#![tactic(auto)]

mod faults;
mod fields;
mod gate;
mod journal;
mod laws;
mod reading;
mod spelling;

pub use faults::JournalFault;
pub use journal::Journal;
pub use laws::{
    a_bad_entry_stands_in_no_journal, a_cut_journal_is_empty, a_journal_depends_on_its_bytes,
    an_image_says_one_journal,
};
pub use reading::{EntryList, entries};
