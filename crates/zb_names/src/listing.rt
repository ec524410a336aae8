ghost use Rattle.std.specs.Prelude.{◌≡◌, ◌≢◌, ℕ, ◌<◌, ◌≤◌, ◌++◌, [], ◌∷◌, true, drop, length, slice_index, IfNone, IfOk, IfSome, OnOk, OnErr};
ghost use Rattle.std.specs.List.Sorted.{IsStrictlySortedBy};
ghost use Rattle.std.specs.Map.{keys_of};
ghost use Rattle.zb_types.specs.Paths.{is_path};
ghost use Rattle.std.specs.Ordering.{nat_cmp};
ghost use Rattle.std.specs.Cmp.Lexicographic.{slice_cmp};
ghost use Rattle.zb_names.specs.Listing.{IsFront, IsStartBehind, IsFirstFrom, HasNoneFrom, name_of, names_behind};

use crate::entries::EntryList;
use std::alloc::Global;
use zb_types::{Mem, Name, NameList};

// Adds what stands behind a front, if it is a name.
fn push_name(alloc: Global, names: &mut NameList, text: &[u8]) -> Mem<()>
    ensures ok { OnOk result (names.new ≡ names.old ++ name_of text.now) }
{
    match Name::parse(alloc, text)? {
        None => Ok(()),
        Some(name) => names.push(name),
    }
}

// The place of the first slash of a text, or its length where there is none.
fn slash_in(text: &[u8]) -> usize
    ensures within { result ≤ length text.now }
    ensures before { (k : ℕ) → k < result → slice_index text.now k ≢ 47 }
    ensures found { result < length text.now → slice_index text.now result ≡ 47 }
{
    for (i, b) in text.iter().enumerate() {
        if *b == b'/' {
            return i;
        }
    }
    text.len()
}

// Where paths go on behind this one, which begins with a front of so many bytes.
fn start_behind(alloc: Global, path: &[u8], front: usize) -> Mem<Vec<u8>>
    requires { front ≤ length path.now }
    ensures { IfOk result (λ start. IsStartBehind front path.now start.items) }
{
    let (_, text) = path.split_at(front);
    let at = slash_in(text);
    if at == text.len() {
        let mut start = Vec::from_slice(alloc, path)?;
        start.push(0)?;
        return Ok(start);
    }
    let (child, _) = path.split_at(front + at);
    let mut start = Vec::from_slice(alloc, child)?;
    start.push(b'0')?;
    Ok(start)
}

// Adds the name of a path that begins with a front, if it has one, and gives where paths go on.
fn pass(alloc: Global, names: &mut NameList, path: &[u8], front: &[u8]) -> Mem<Vec<u8>>
    requires { length front.now ≤ length path.now }
    ensures names { OnOk result (names.new ≡ names.old ++ name_of (drop (length front.now) path.now)) }
    ensures start { IfOk result (λ start. IsStartBehind (length front.now) path.now start.items) }
{
    let (_, text) = path.split_at(front.len());
    push_name(alloc, names, text)?;
    start_behind(alloc, path, front.len())
}

// The first path from a start on.
fn first_from<'a>(kept: &'a EntryList, start: &[u8]) -> Option<&'a [u8]>
    ensures some { IfSome result (λ path. IsFirstFrom start.now kept.now.entries path.now) }
    ensures none { IfNone result (HasNoneFrom start.now kept.now.entries) }
    ensures path { IfSome result (λ path. is_path path.now ≡ true) }
    ensures rising { IsStrictlySortedBy (slice_cmp nat_cmp) (keys_of kept.now.entries) }
{
    let (path, _) = kept.from_path(start, b"").first()?;
    Some(path.slice())
}

// The names that stand right behind the front, in their order. What lies below a child is left out in one step.
pub(crate) fn names_behind(alloc: Global, kept: &EntryList, front: &[u8]) -> Mem<NameList>
    requires { IsFront front.now }
    ensures { IfOk result (λ names. names ≡ names_behind front.now kept.now.entries) }
{
    let mut names = NameList::new(alloc)?;
    let mut start = Vec::from_slice(alloc, front)?;
    while let Some(path) = first_from(kept, &start) {
        if !path.starts_with(front) {
            return Ok(names);
        }
        start = pass(alloc, &mut names, path, front)?;
    }
    Ok(names)
}
