ghost use Rattle.std.specs.Prelude.{◌≡◌, ◌≤◌, ◌^◌, ◌==◌};
ghost use Rattle.std.specs.List.{list_any};
ghost use Rattle.zb_platter.specs.Naming.{first_naming as first_of, names_stripe};

use zb_entries::Entry;
use zb_types::{LogId, Piece};

// Whether one of these pieces lies in this stripe.
fn one_is_in(pieces: &[Piece], stripe: u64) -> bool
    ensures { result ≡ list_any (λ p. p.stripe == stripe) pieces.now }
{
    pieces.iter().any(|piece| piece.stripe == stripe)
}

// Whether the entry is a commit with a piece in this stripe.
fn names(entry: &Entry, log: LogId, stripe: u64) -> bool
    ensures { result ≡ names_stripe log stripe entry.now }
{
    match entry {
        Entry::Commit {
            log: owner,
            pieces,
            ..
        } => *owner == log && one_is_in(pieces.slice(), stripe),
        Entry::Attach { .. } | Entry::Mark { .. } | Entry::Retire { .. } => false,
    }
}

/// The number of the first entry that commits a piece in a stripe, where the first of all has the number `first`, at most
/// 2^48.
pub fn first_naming(entries: &[Entry], first: u64, log: LogId, stripe: u64) -> Option<u64>
    requires { first ≤ 2 ^ 48 }
    ensures { result ≡ first_of first log stripe entries.now }
{
    let mut rest = entries;
    let mut number = first;
    while let Some((entry, others)) = rest.split_first() {
        if names(entry, log, stripe) {
            return Some(number);
        }
        number += 1;
        rest = others;
    }
    None
}
