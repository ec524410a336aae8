//! The tables of the file manager: what they hold, what an entry of the journal does to them, and the tree that they
//! show. Definitions and their laws alone.
#![tactic(auto)]

mod laws;
mod log_laws;
mod lookup_laws;
mod table_laws;

pub use laws::{
    batch_shows_updates, clean_leaves_files, clean_leaves_heads, committed_bytes_decide,
    current_lookup_merges, first_tables_are_of_a_checkpoint,
    nothing_lives_where_all_point_elsewhere, pointers_stay_in_what_is_held, replay_is_one,
    tail_shows_again, taken_entries_are_replayed,
};
pub use log_laws::{
    attach_leaves_logs, commit_leaves_logs, last_stripe_is_greatest, mark_leaves_logs,
    retire_leaves_logs,
};
pub use lookup_laws::{
    batch_leaves_blocks, clean_leaves_blocks, committed_pointers_stay, cut_leaves_files,
    lookups_go_on, updates_leave_files, write_leaves_files,
};
pub use table_laws::{entries_leave_tables, tables_have_few};
