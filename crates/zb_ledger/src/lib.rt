//! What a world keeps of the calls that it was given, beside its nodes, so that it can give the history of what was
//! answered: how many calls each client has, the calls that have no final line, and the history so far. It knows no nodes
//! and no text.
#![tactic(auto)]

mod keeping;
mod ledger;

pub use keeping::{
    ledger_history_is_legal, ledger_keeps_lines, ledger_keeps_lookups, ledger_keeps_what_is_given,
};
pub use ledger::Ledger;
