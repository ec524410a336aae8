ghost use Rattle.std.specs.Prelude.{◌≡◌, ◌-◌, ◌<◌, ◌≤◌, ◌^◌, nat_le, if◌then◌else◌, AllPairs, length, slice_get, None};
ghost use Rattle.zb_forming.specs.Drafts.{is_left, moved_by, moved_in, place_of, rose_in, stands, version_in};

use crate::draft::{Draft, Was};
use crate::finding::found_at;
use zb_types::{Fid, Found};

/// The place among the new blocks of block `k` of an operation that changes the file.
fn new_by(draft: &Draft, k: u32) -> Option<Was>
    ensures { result ≡ place_of (if nat_le draft.now.first k then slice_get draft.now.changes (k - draft.now.first) else None) None }
{
    if k < draft.first {
        return None;
    }
    match draft.changes.get((k - draft.first) as usize) {
        Some(change) => Some(Was::New(change.place)),
        None => None,
    }
}

/// Whether an operation drops block `k` of the file that it changes.
fn is_left(left: Option<u64>, k: u32) -> bool
    ensures { result ≡ is_left left k }
{
    match left {
        Some(left) => left <= u64::from(k),
        None => false,
    }
}

/// Where block `k` of a file stands after an operation, where the operation says so.
fn moved_by(draft: &Draft, fid: Fid, k: u32) -> Option<Was>
    ensures { result ≡ moved_by draft.now fid.0 k }
{
    if !draft.done || draft.fid.0 != fid.0 {
        return None;
    }
    match new_by(draft, k) {
        Some(was) => Some(was),
        None if is_left(draft.left, k) => Some(Was::Hole),
        None => None,
    }
}

/// Where block `k` of a file stands after some operations, where they say so.
fn moved_in(drafts: &[Draft], fid: Fid, k: u32) -> Option<Was>
    ensures { result ≡ moved_in drafts.now fid.0 k }
{
    match drafts {
        [] => None,
        [draft, others @ ..] => match moved_in(others, fid, k) {
            Some(was) => Some(was),
            None => moved_by(draft, fid, k),
        },
    }
}

/// Where block `k` of a file stands after some operations.
pub(crate) fn stands(drafts: &[Draft], found: &Found, fid: Fid, k: u32) -> Was
    requires { AllPairs (λ one other. one.0 < other.0) found.now.blocks }
    ensures { result ≡ stands drafts.now found.now fid.0 k }
{
    if let Some(was) = moved_in(drafts, fid, k) {
        return was;
    }
    match found_at(found, k) {
        Some(ptr) => Was::Stored(ptr),
        None => Was::Hole,
    }
}

/// How often some operations changed a file.
fn rose_in(drafts: &[Draft], fid: Fid) -> usize
    ensures exact { result ≡ rose_in drafts.now fid.0 }
    ensures few { result ≤ length drafts.now }
{
    match drafts {
        [] => 0,
        [draft, others @ ..] if draft.done && draft.fid.0 == fid.0 => rose_in(others, fid) + 1,
        [_, others @ ..] => rose_in(others, fid),
    }
}

/// The version of a file after some operations, 0 where there is none.
pub(crate) fn version_in(drafts: &[Draft], found: &Found, fid: Fid) -> u64
    requires { found.now.version ≤ 2 ^ 48 }
    ensures { result ≡ version_in drafts.now found.now fid.0 }
{
    if found.version == 0 {
        return 0;
    }
    found.version + rose_in(drafts, fid) as u64
}
