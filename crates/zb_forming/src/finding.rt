ghost use Rattle.std.specs.Prelude.{◌≡◌, ◌<◌, ◌≤◌, AllPairs, length};
ghost use Rattle.std.specs.List.{AllWithin};
ghost use Rattle.zb_types.specs.Keyed.{look};
ghost use Rattle.zb_forming.specs.Drafts.{is_same, known};

use zb_basis::Fetched;
use zb_types::{Found, Ptr};

/// How many blocks have numbers below `k`.
fn count_below(blocks: &[(u32, Ptr)], k: u32) -> usize
    requires { AllPairs (λ one other. one.0 < other.0) blocks.now }
    ensures below { AllWithin (λ entry. entry.0 < k) blocks.now 0 result }
    ensures others { AllWithin (λ entry. k ≤ entry.0) blocks.now result (length blocks.now) }
{
    blocks.partition_point(|entry| entry.0 < k)
}

/// Where a lookup found block `k`.
pub(crate) fn found_at(found: &Found, k: u32) -> Option<Ptr>
    requires { AllPairs (λ one other. one.0 < other.0) found.now.blocks }
    ensures { result ≡ look k found.now.blocks }
{
    let at = count_below(found.blocks.slice(), k);
    match found.blocks.get(at) {
        Some(entry) if entry.0 == k => Some(entry.1),
        _ => None,
    }
}

fn is_same(one: &Ptr, other: &Ptr) -> bool
    ensures { result ≡ is_same one.now other.now }
{
    one == other
}

/// The bytes that were fetched from a pointer, none where none were.
pub(crate) fn fetched_at(fetched: &[Fetched], ptr: Ptr) -> &[u8]
    ensures { result.now ≡ known fetched.now ptr }
{
    match fetched {
        [] => &[],
        [block, others @ ..] => {
            if is_same(&block.ptr, &ptr) {
                block.bytes.slice()
            } else {
                fetched_at(others, ptr)
            }
        }
    }
}
