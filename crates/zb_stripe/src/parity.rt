ghost use Rattle.std.specs.Prelude.{◌≡◌, ℕ, List, ◌+◌, ◌-◌, ◌*◌, ◌<◌, ◌≤◌, ◌++◌, IfOk, length, map, drop, slice_index, bit_xor};
ghost use Rattle.std.specs.List.{range_with_len};
ghost use Rattle.zb_holding.specs.Exclusive.{xor_at};
ghost use Rattle.zb_holding.specs.Placing.{share_length, share_of};
ghost use Rattle.zb_stripe.specs.Writing.{parity_upto};

use std::alloc::Global;
use zb_layout::share;
use zb_parity::{xor_behind, xor_into};
use zb_types::{ByteList, Geometry, LenList, Mem};

/// How much of each share the first `length` bytes of a stripe reach.
pub(crate) fn lengths(alloc: Global, geo: &Geometry, length: u32) -> Mem<LenList>
    ensures { IfOk result
        (λ lengths. lengths
        ≡ map (share_length geo.now.fragment length) (range_with_len 0 (geo.now.servers - 1))) }
{
    let mut lengths = Vec::new(alloc);
    for k in 0..(geo.servers - 1) as u8 {
        lengths.push(share(geo, length, k))?;
    }
    Ok(LenList::of(lengths))
}

/// The new bytes of share `k`, of those of its stripe behind the first `begin`.
pub(crate) fn new_of_share<'a>(geo: &Geometry, begin: u32, new: &'a [u8], k: u8) -> &'a [u8]
    requires index { k < geo.now.servers - 1 }
    requires room { begin + length new.now ≤ (geo.now.servers - 1) * geo.now.fragment }
    ensures long { length result.now ≡ share_length geo.now.fragment (begin + length new.now) k
        - share_length geo.now.fragment begin k }
    ensures new { (before : List ℕ) → length before ≡ begin
        → result.now ≡ drop (share_length geo.now.fragment begin k) (share_of geo.now.fragment (before ++ new.now) k) }
{
    let had = share(geo, begin, k);
    let all = share(geo, begin + new.len() as u32, k);
    if all <= had {
        return &[];
    }
    let from = usize::from(k) * geo.fragment as usize + had as usize - begin as usize;
    &new[from..from + (all - had) as usize]
}

/// Puts the new bytes of each share into `into`.
fn xor_new(into: &mut [u8], geo: &Geometry, begin: u32, new: &[u8])
    requires room { begin + length new.now ≤ (geo.now.servers - 1) * geo.now.fragment }
    requires long { share_length geo.now.fragment (begin + length new.now) 0 ≤ length into.old }
    ensures { (before : List ℕ) (y : ℕ) → length before ≡ begin
        → bit_xor (slice_index into.new y) (xor_at (share_of geo.now.fragment before) (geo.now.servers - 1) y)
        ≡ bit_xor (slice_index into.old y) (xor_at (share_of geo.now.fragment (before ++ new.now)) (geo.now.servers - 1) y) }
{
    for k in 0..(geo.servers - 1) as u8 {
        let had = share(geo, begin, k) as usize;
        xor_behind(into, had, new_of_share(geo, begin, new, k));
    }
}

/// The parity of all bytes of a stripe, from the parity of its first `begin` bytes and the new ones behind them.
pub fn grow_parity(
    alloc: Global,
    geo: &Geometry,
    parity: &[u8],
    begin: u32,
    new: &[u8],
) -> Mem<ByteList>
    requires room { begin + length new.now ≤ (geo.now.servers - 1) * geo.now.fragment }
    requires long { length parity.now ≡ share_length geo.now.fragment begin 0 }
    ensures { IfOk result (λ grown. (before : List ℕ) → length before ≡ begin
        → parity.now ≡ parity_upto geo.now.servers geo.now.fragment before
        → grown ≡ parity_upto geo.now.servers geo.now.fragment (before ++ new.now)) }
{
    let longest = share(geo, begin + new.len() as u32, 0) as usize;
    let mut grown = vec![in alloc; 0u8; longest]?;
    xor_into(&mut grown, parity);
    xor_new(&mut grown, geo, begin, new);
    Ok(ByteList::of(grown))
}
