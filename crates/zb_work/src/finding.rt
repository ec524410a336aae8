ghost use Rattle.std.specs.Prelude.{◌≡◌, ◌+◌, ◌<◌, ◌≤◌, true, false, All, [], ◌∷◌, length, Option};
ghost use Rattle.std.specs.Option.{option_copied};
ghost use Rattle.zb_basis.specs.Looking.{ask_of, asks_of, IsFoundBlock, MayFind, AreFoundFor};
ghost use Rattle.zb_basis.specs.Reading.{is_read};
ghost use Rattle.zb_work.specs.Finding.{RisesFrom};

use zb_basis::{Ask, Numbered, ask_of};
use zb_types::{Call, Found, MAX_FILE, Ptr};

/// The greatest version of a file.
const MOST_VERSION: u64 = 281_474_976_710_656;

/// Whether this may be a block that was found for what was asked, in a stripe with room for so many bytes.
fn is_found_block(block: u32, room: u32, ask: &Ask, k: u32, ptr: &Ptr) -> bool
    ensures fits { result ≡ true → IsFoundBlock block room ask.now (k, ptr.now) }
    ensures differs { result ≡ false → ¬ (IsFoundBlock block room ask.now (k, ptr.now)) }
{
    if k < ask.first || u64::from(k) >= u64::from(ask.first) + u64::from(ask.count) {
        return false;
    }
    if ptr.len == 0 || ptr.len > block {
        return false;
    }
    u64::from(ptr.offset) + u64::from(ptr.len) <= u64::from(room)
}

/// Whether these may all be found for what was asked.
fn are_found_blocks(block: u32, room: u32, ask: &Ask, blocks: &[(u32, Ptr)]) -> bool
    ensures fits { result ≡ true → All (IsFoundBlock block room ask.now) blocks.now }
    ensures differs { result ≡ false → ¬ (All (IsFoundBlock block room ask.now) blocks.now) }
{
    for (k, ptr) in blocks {
        if !is_found_block(block, room, ask, *k, ptr) {
            return false;
        }
    }
    true
}

/// Whether the numbers of blocks rise.
fn rise(blocks: &[(u32, Ptr)]) -> bool
    ensures fits { result ≡ true → RisesFrom 0 blocks.now }
    ensures differs { result ≡ false → ¬ (RisesFrom 0 blocks.now) }
{
    let mut least = 0u64;
    for (k, _) in blocks {
        if u64::from(*k) < least {
            return false;
        }
        least = u64::from(*k) + 1;
    }
    true
}

/// Whether this may be found for what was asked.
fn may_find(block: u32, room: u32, ask: &Ask, found: &Found) -> bool
    ensures fits { result ≡ true → MayFind block room ask.now found.now }
    ensures differs { result ≡ false → ¬ (MayFind block room ask.now found.now) }
{
    if found.version > MOST_VERSION || found.length as usize > MAX_FILE {
        return false;
    }
    let blocks = found.blocks.slice();
    are_found_blocks(block, room, ask, blocks) && rise(blocks)
}

/// Whether this may be found for a batch of these calls.
pub fn fits_batch(block: u32, room: u32, calls: &[Numbered], found: &[Found]) -> bool
    requires { 0 < block }
    ensures fits { result ≡ true → AreFoundFor block room (asks_of block calls.now) found.now }
    ensures differs { result ≡ false → ¬ (AreFoundFor block room (asks_of block calls.now) found.now) }
{
    if calls.len() != found.len() {
        return false;
    }
    for i in 0..calls.len() {
        if !may_find(block, room, &ask_of(block, &calls[i].call), &found[i]) {
            return false;
        }
    }
    true
}

/// Whether this may be found for a call that reads a file's bytes.
pub fn fits_read(block: u32, room: u32, call: &Call, found: &[Found]) -> bool
    requires { 0 < block }
    ensures read { result ≡ true → is_read call.now ≡ true }
    ensures found { result ≡ true → AreFoundFor block room (ask_of block call.now ∷ []) found.now }
    ensures differs { result ≡ false → is_read call.now ≡ true → ¬ (AreFoundFor block room (ask_of block call.now ∷ []) found.now) }
{
    match (call, found) {
        (Call::Read { .. }, [found]) => may_find(block, room, &ask_of(block, call), found),
        _ => false,
    }
}
