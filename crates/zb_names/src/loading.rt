ghost use Rattle.std.specs.Prelude.{◌≡◌, is_none};
ghost use Rattle.std.specs.List.{list_all};
ghost use Rattle.zb_types.specs.Names.{walk};
ghost use Rattle.zb_names.specs.Shown.{seen};
ghost use Rattle.zb_names.specs.Sound.{has_number};
ghost use Rattle.zb_names.specs.Loading.{rise, paths_of};

use crate::entries::{Entry, EntryList};
use crate::looking::walk;
use std::cmp::Ordering;
use zb_types::Path;

// Whether each path is less than the next by its bytes.
pub(crate) fn rise(list: &[(Path, Entry)]) -> bool
    ensures { result ≡ rise (paths_of list.now) }
{
    let mut rest = list;
    while let [(path, _), others @ ..] = rest {
        if let [(next, _), ..] = others {
            if path.slice().cmp(next.slice()) != Ordering::Less {
                return false;
            }
        }
        rest = others;
    }
    true
}

// Whether each proper front of each path is that of a directory.
pub(crate) fn all_hang(kept: &EntryList, list: &[(Path, Entry)]) -> bool
    ensures { result ≡ list_all (λ e. is_none (walk kept.now.entries e.0)) list.now }
{
    list.iter()
        .all(|(path, _)| walk(kept, path.slice()).is_none())
}

fn has_number(next: u32, entry: Entry) -> bool
    ensures { result ≡ has_number next (seen entry) }
{
    match entry {
        Entry::Dir => true,
        Entry::File(fid) => 1 <= fid.0 && fid.0 < next,
    }
}

// Whether each file has a number from 1 that is below the next.
pub(crate) fn are_numbered(next: u32, list: &[(Path, Entry)]) -> bool
    ensures { result ≡ list_all (λ e. has_number next (seen e.1)) list.now }
{
    list.iter().all(|(_, entry)| has_number(next, *entry))
}
