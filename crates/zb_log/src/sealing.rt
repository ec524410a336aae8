ghost use Rattle.std.specs.Prelude.{◌≡◌, ℕ, List, ◌+◌, ◌-◌, ◌*◌, ◌≤◌, ◌++◌, IfOk, length};
ghost use Rattle.std.specs.List.{concat};
ghost use Rattle.zb_holding.specs.Placing.{share_length};
ghost use Rattle.zb_stripe.specs.Writing.{parity_upto};
ghost use Rattle.zb_stripe.specs.Fresh.{IsFresh, AreFresh};
ghost use Rattle.zb_log.specs.Logs.{last_of};
ghost use Rattle.zb_log.specs.Sealing.{part_of, given_of, parts_of, HaveBytes, GoBehind};

use std::alloc::Global;
use zb_stripe::{Fresh, FreshFlush, grow_parity};
use zb_types::{ByteList, Geometry, Mem, Piece};

/// The bytes of a batch, one behind the other.
pub(crate) fn joined(alloc: Global, meta: &ByteList, blocks: &[ByteList]) -> Mem<Vec<u8>>
    ensures { IfOk result (λ new. new.items ≡ meta.now ++ concat blocks.now) }
{
    let mut new = Vec::from_slice(alloc, meta.slice())?;
    for block in blocks {
        new.extend_from_slice(block.slice())?;
    }
    Ok(new)
}

/// What is new of a piece's stripe, with these bytes behind those before, which have this parity.
fn fresh_part(alloc: Global, geo: &Geometry, parity: &[u8], piece: &Piece, new: &[u8]) -> Mem<Fresh>
    requires room { piece.now.offset + length new.now ≤ (geo.now.servers - 1) * geo.now.fragment }
    requires long { length parity.now ≡ share_length geo.now.fragment piece.now.offset 0 }
    ensures { IfOk result (λ fresh. (before : List ℕ) → length before ≡ piece.now.offset
        → parity.now ≡ parity_upto geo.now.servers geo.now.fragment before
        → IsFresh geo.now.servers geo.now.fragment (part_of before piece.now new.now) fresh) }
{
    let parity = grow_parity(alloc, geo, parity, piece.offset, new)?;
    Ok(Fresh {
        stripe: piece.stripe,
        begin: piece.offset,
        bytes: ByteList::from_slice(alloc, new)?,
        parity,
    })
}

/// The parity of what was given of a stripe: of none but the stripe at work anything was.
fn parity_before<'a>(at_work: u64, parity: &'a [u8], stripe: u64) -> &'a [u8]
    ensures { result.now ≡ given_of at_work parity.now stripe }
{
    if stripe == at_work { parity } else { &[] }
}

/// What is new of the stripe of each piece, where `new` are the bytes of all pieces, one behind the other, and `parity`
/// is that of the bytes before of the stripe at work.
pub(crate) fn fresh_parts(
    alloc: Global,
    geo: &Geometry,
    at_work: u64,
    parity: &[u8],
    pieces: &[Piece],
    new: &[u8],
) -> Mem<Vec<Fresh>>
    requires { GoBehind geo.now.servers geo.now.fragment at_work parity.now pieces.now new.now }
    ensures { IfOk result (λ fresh. (given : List ℕ) → parity.now ≡ parity_upto geo.now.servers geo.now.fragment given
        → HaveBytes at_work given pieces.now new.now
        → AreFresh geo.now.servers geo.now.fragment (parts_of at_work given pieces.now new.now) fresh.items) }
{
    let mut parts = Vec::new(alloc);
    let mut rest = new;
    for piece in pieces {
        let (own, others) = rest.split_at(piece.len as usize);
        let before = parity_before(at_work, parity, piece.stripe);
        parts.push(fresh_part(alloc, geo, before, piece, own)?)?;
        rest = others;
    }
    Ok(parts)
}

/// What is new of the last stripe of a flush.
pub(crate) fn last_part(fresh: FreshFlush) -> Option<Fresh>
    ensures { result ≡ last_of fresh.parts }
{
    fresh.parts.into_items().pop()
}
