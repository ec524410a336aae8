ghost use Rattle.std.specs.Prelude.{◌≡◌, None, Some, false, IfOk, OnOk, MatchResult, option_map};
ghost use Rattle.std.specs.List.{list_any};
ghost use Rattle.zb_types.specs.Names.{find, has, is_below, not_dir, walk};
ghost use Rattle.zb_names.specs.Shown.{seen};
ghost use Rattle.zb_names.specs.Answers.{refusal_at, refusal_of_new};

use crate::comparing::is_below;
use crate::entries::{Entry, EntryList, MAX_NAMES};
use zb_types::Refusal;

// Why a path doesn't go on below this, if it doesn't.
fn not_dir(found: Option<Entry>) -> Option<Refusal>
    ensures { result ≡ not_dir (option_map seen found) }
{
    match found {
        None => Some(Refusal::NoEntry),
        Some(Entry::Dir) => None,
        Some(Entry::File(_)) => Some(Refusal::NotDir),
    }
}

// The refusal of the shortest proper front of the path that isn't a directory.
pub(crate) fn walk(kept: &EntryList, path: &[u8]) -> Option<Refusal>
    ensures { result ≡ walk kept.now.entries path.now }
{
    for (i, b) in path.iter().enumerate() {
        if *b == b'/' && i > 0 {
            let why = not_dir(kept.find(&path[..i]));
            if why.is_some() {
                return why;
            }
        }
    }
    None
}

// What stands at the path, or why it isn't reached.
pub(crate) fn entry_at(kept: &EntryList, path: &[u8]) -> Result<Entry, Refusal>
    ensures found { IfOk result (λ entry. find path.now kept.now.entries ≡ Some (seen entry)) }
    ensures walked { OnOk result (walk kept.now.entries path.now ≡ None) }
    ensures refused { MatchResult result (λ _. refusal_at kept.now.entries path.now ≡ None) (λ why. refusal_at kept.now.entries path.now ≡ Some why) }
{
    if let Some(why) = walk(kept, path) {
        return Err(why);
    }
    match kept.find(path) {
        None => Err(Refusal::NoEntry),
        Some(entry) => Ok(entry),
    }
}

// Whether something stands below a path.
pub(crate) fn has_below(kept: &EntryList, path: &[u8]) -> bool
    ensures { result ≡ list_any (λ e. is_below path.now e.0) kept.now.entries }
{
    match kept.from_path(path, b"/").first() {
        None => false,
        Some((first, _)) => is_below(path, first.slice()),
    }
}

// Why nothing can be made at the path, if nothing can.
pub(crate) fn refusal_of_new(kept: &EntryList, path: &[u8]) -> Option<Refusal>
    ensures { result ≡ refusal_of_new kept.now.entries path.now }
{
    let why = walk(kept, path);
    if why.is_some() {
        return why;
    }
    if kept.find(path).is_some() {
        return Some(Refusal::Exists);
    }
    if kept.slice().len() >= MAX_NAMES {
        return Some(Refusal::Full);
    }
    None
}
