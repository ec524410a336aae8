ghost use Rattle.std.specs.Prelude.{◌≡◌, take, is_some, IfOk};
ghost use Rattle.std.specs.List.Sorted.{IsStrictlySortedBy};
ghost use Rattle.std.specs.Map.{lookup, keys_of};
ghost use Rattle.zb_types.specs.Order.{frag_cmp};
ghost use Rattle.zb_holding.specs.Carrying.{same_frag};
ghost use Rattle.zb_holding.specs.Listing.{start_above, names_above, most_names, AreLeastAbove};

use std::alloc::Global;
use std::collections::BTreeMap;
use std::ops::Bound;
use zb_types::{FragId, FragList, Mem};

/// The most names of one answer.
pub const MOST_NAMES: usize = 256;

// Where the names above another begin.
fn start_above(after: Option<FragId>) -> Bound<FragId>
    ensures { result ≡ start_above after }
{
    match after {
        None => Bound::Unbounded,
        Some(id) => Bound::Excluded(id),
    }
}

/// The least names above another, or of all names that are held, in order: 256 at most. Costs what it lists and a
/// logarithm of the names held.
pub fn names_above<V>(
    alloc: Global,
    held: &BTreeMap<FragId, V>,
    after: Option<FragId>,
) -> Mem<FragList>
    requires { IsStrictlySortedBy frag_cmp (keys_of held.now.entries) }
    ensures names { IfOk result (λ names. names ≡ take most_names (names_above after held.now.entries)) }
    ensures least { IfOk result
        (AreLeastAbove (λ id. is_some (lookup (same_frag id) held.now.entries)) after) }
{
    let mut names = Vec::new(alloc);
    for (id, _) in held.range((start_above(after), Bound::Unbounded)) {
        if names.len() == MOST_NAMES {
            return Ok(FragList::of(names));
        }
        names.push(*id)?;
    }
    Ok(FragList::of(names))
}
