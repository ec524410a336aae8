//! What standing platters are for, and what each thing that a system does leaves of it: requests of a flush, entries of
//! the journal, a server that is lost or rebuilt. All at one choice of the platters' images, over plain values.
//! Definitions and their laws alone.
#![tactic(auto)]

mod changes;
mod commits;
mod flushes;
mod last_flushes;
mod logs_current;
mod lookups_current;
mod nodes_fit;
mod old_stripes;
mod owners;
mod rebuilding;
mod recovery;
mod sealed;

pub use changes::{changes_keep, contents_may_grow, finish_keeps};
pub use commits::{clean_leaves_tree, commit_may_be_cut_off, commit_takes_tree, flush_is_flushed};
pub use flushes::{
    changes_leave_parts, flush_at_work, flush_stays, log_goes_on, parts_make_contents,
    requests_beside_keep,
};
pub use last_flushes::{
    flush_finds_its_place, flushes_come_to_their_end, last_flush_of_a_log, last_flush_stays,
    nothing_is_of_new_logs, requests_find_their_places,
};
pub use logs_current::{current_logs_are_taken, logs_stay_current};
pub use lookups_current::{
    fetched_blocks_stay, lookups_show_their_files, lookups_stay_current, old_stripes_stay_right,
};
pub use nodes_fit::{fit_nodes_leave_others_fit, nodes_stay_fit};
pub use old_stripes::{copies_stay_current, stray_fragments_may_go, stray_stripes_stay};
pub use owners::log_of_an_owner;
pub use rebuilding::{rebuild_stays_covered, whole_stripes_stand};
pub use recovery::{first_platters_stand, sound_recovers, what_is_said_is_in_form};
pub use sealed::sealed_batches_are_found;
