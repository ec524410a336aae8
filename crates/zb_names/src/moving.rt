ghost use Rattle.std.specs.Prelude.{◌≡◌, ◌≤◌, ◌++◌, true, false, Some, length, drop, None, IfOk, OnOk, MatchResult, IsTrue};
ghost use Rattle.std.specs.List.{AllByRecursion};
ghost use Rattle.zb_types.specs.Names.{find, walk, is_dir, max_path};
ghost use Rattle.zb_types.specs.Paths.{is_path};
ghost use Rattle.zb_names.specs.Shown.{seen, listed};
ghost use Rattle.zb_names.specs.Answers.{gets_too_long, refusal_of_move};
ghost use Rattle.zb_names.specs.Changing.{any_too_long, below, relocated};

use crate::comparing::is_below;
use crate::entries::{Entry, EntryList};
use crate::looking::{entry_at, walk};
use std::alloc::Global;
use zb_types::{Mem, Path, Refusal};

const MAX_PATH: usize = 1024;

// Whether a path below this one gets too many bytes, where so many are put in place of this one's.
fn any_too_long(kept: &EntryList, path: &[u8], added: usize) -> bool
    requires { added ≤ max_path }
    ensures { result ≡ any_too_long (length path.now) added (below path.now kept.now.entries) }
{
    for (other, _) in kept.from_path(path, b"/") {
        let other = other.slice();
        if !is_below(path, other) {
            return false;
        }
        if other.len() - path.len() > MAX_PATH - added {
            return true;
        }
    }
    false
}

// What is kept at the old path, or why it isn't renamed to the new one.
pub(crate) fn movable(kept: &EntryList, from: &[u8], to: &[u8]) -> Result<Entry, Refusal>
    requires { length to.now ≤ max_path }
    ensures found { IfOk result (λ entry. find from.now kept.now.entries ≡ Some (seen entry)) }
    ensures refused { MatchResult result (λ _. refusal_of_move kept.now.entries from.now to.now ≡ None) (λ why. refusal_of_move kept.now.entries from.now to.now ≡ Some why) }
{
    let entry = entry_at(kept, from)?;
    if let Some(why) = walk(kept, to) {
        return Err(why);
    }
    if kept.find(to).is_some() {
        return Err(Refusal::Exists);
    }
    if is_below(from, to) {
        return Err(Refusal::Inside);
    }
    if any_too_long(kept, from, to.len()) {
        return Err(Refusal::TooBig);
    }
    Ok(entry)
}

// The path with these bytes.
fn path_of(alloc: Global, bytes: &[u8]) -> Mem<Path>
    requires { IsTrue (is_path bytes.now) }
    ensures { IfOk result (λ path. path ≡ bytes.now) }
{
    Ok(Path::parse(alloc, bytes)?.unwrap())
}

// The path to which another goes where its first bytes are replaced.
fn relocated(alloc: Global, path: &[u8], cut: usize, to: &[u8]) -> Mem<Path>
    requires within { cut ≤ length path.now }
    requires path { is_path (to.now ++ drop cut path.now) ≡ true }
    ensures { IfOk result (λ made. made ≡ to.now ++ drop cut path.now) }
{
    let (_, rest) = path.split_at(cut);
    let mut bytes = Vec::from_slice(alloc, to)?;
    bytes.extend_from_slice(rest)?;
    path_of(alloc, &bytes)
}

// Adds what stands below a path, each entry with its new path.
fn push_below(
    alloc: Global,
    fresh: &mut Vec<(Path, Entry)>,
    kept: &EntryList,
    from: &[u8],
    to: &[u8],
) -> Mem<()>
    requires { AllByRecursion (λ e. is_path e.0 ≡ true) (relocated (length from.now) to.now (below from.now kept.now.entries)) }
    ensures { OnOk result (listed fresh.new.items ≡ listed fresh.old.items ++ relocated (length from.now) to.now (below from.now kept.now.entries)) }
{
    for (path, entry) in kept.from_path(from, b"/") {
        let path = path.slice();
        if !is_below(from, path) {
            return Ok(());
        }
        fresh.push((relocated(alloc, path, from.len(), to)?, *entry))?;
    }
    Ok(())
}

// What stands below a path, each entry with its new path.
pub(crate) fn moved_below(
    alloc: Global,
    kept: &EntryList,
    from: &[u8],
    to: &[u8],
) -> Mem<Vec<(Path, Entry)>>
    requires { AllByRecursion (λ e. is_path e.0 ≡ true) (relocated (length from.now) to.now (below from.now kept.now.entries)) }
    ensures { IfOk result (λ fresh. listed fresh.items ≡ relocated (length from.now) to.now (below from.now kept.now.entries)) }
{
    let mut fresh = Vec::new(alloc);
    push_below(alloc, &mut fresh, kept, from, to)?;
    Ok(fresh)
}
