//! The parity of shares, by exclusive or, and a share rebuilt from it.
#![tactic(auto)]

ghost use Rattle.std.specs.Prelude.{◌≡◌, ℕ, ◌+◌, ◌<◌, ◌≤◌, IfOk, length, map, slice_index, bit_xor};
ghost use Rattle.zb_holding.specs.Exclusive.{xored, xor_at, list_at, greatest, IsXorOf};
ghost use Rattle.zb_parity.specs.Rebuilding.{Rebuilds, Restores};

use std::alloc::Global;
use std::simd::u8x32;
use zb_types::{ByteList, Mem};

/// How many bytes are taken at once.
const LANES: usize = 32;

/// Puts each byte of `from` into the one at its place, by exclusive or.
pub fn xor_into(into: &mut [u8], from: &[u8])
    requires { length from.now ≤ length into.old }
    ensures { into.new ≡ xored into.old from.now }
{
    let mut at = 0;
    while from.len() - at >= LANES {
        let lanes = u8x32::from_slice(&into[at..]) ^ u8x32::from_slice(&from[at..]);
        lanes.copy_to_slice(&mut into[at..]);
        at += LANES;
    }
    while at < from.len() {
        into[at] ^= from[at];
        at += 1;
    }
}

/// Puts bytes into those from `at` on, by exclusive or.
pub fn xor_behind(into: &mut [u8], at: usize, from: &[u8])
    requires { at + length from.now ≤ length into.old }
    ensures front { (y : ℕ) → y < at → slice_index into.new y ≡ slice_index into.old y }
    ensures behind { (y : ℕ) → slice_index into.new (at + y)
        ≡ bit_xor (slice_index into.old (at + y)) (slice_index from.now y) }
{
    let (_, behind) = into.split_at_mut(at);
    xor_into(behind, from);
}

/// Puts in each of these shares, as far as they reach.
fn xor_shares(into: &mut [u8], shares: &[ByteList])
    ensures { (y : ℕ) → y < length into.old
        → slice_index into.new y ≡ bit_xor (slice_index into.old y) (xor_at (list_at shares.now) (length shares.now) y) }
{
    for share in shares {
        let share = share.slice();
        let reached = share.len().min(into.len());
        xor_into(into, &share[..reached]);
    }
}

fn longest(shares: &[ByteList]) -> usize
    ensures { result ≡ greatest (map length shares.now) }
{
    let mut longest = 0;
    for share in shares {
        longest = share.len().max(longest);
    }
    longest
}

/// The parity of some shares, as long as the longest.
pub fn parity_of(alloc: Global, shares: &[ByteList]) -> Mem<ByteList>
    ensures longest { IfOk result (λ parity. length parity ≡ greatest (map length shares.now)) }
    ensures exclusive { IfOk result (IsXorOf (list_at shares.now) (length shares.now)) }
{
    let mut bytes = vec![in alloc; 0u8; longest(shares)]?;
    xor_shares(&mut bytes, shares);
    Ok(ByteList::of(bytes))
}

/// The first `len` bytes of a share, from the parity and all other shares, in any order. Each share has to have just
/// the bytes that the parity covers of it.
pub fn rebuild_one(alloc: Global, parity: &ByteList, others: &[ByteList], len: u32) -> Mem<ByteList>
    requires { len ≤ length parity.now }
    ensures length { IfOk result (λ share. length share ≡ len) }
    ensures exclusive { IfOk result (Rebuilds parity.now others.now) }

    // Whichever share is lost, it comes back.
    ensures restores { IfOk result (Restores parity.now others.now) }
{
    let mut bytes = Vec::from_slice(alloc, &parity.slice()[..len as usize])?;
    xor_shares(&mut bytes, others);
    Ok(ByteList::of(bytes))
}
