ghost use Rattle.std.specs.Prelude.{◌≡◌, ◌+◌, ◌-◌, ◌<◌, ◌≤◌, All, IfNone, IfSome, MatchBool};
ghost use Rattle.zb_log.specs.Placing.{room_at, meta_end, blocks_end, last_stripe, AreBlocks};

/// A byte of a log: byte `offset` of a stripe, from 0. At a stripe's end it is the place behind the last byte.
#[derive(Clone, Copy, Debug, PartialEq, Eq)]
pub struct Place {
    pub stripe: u64,
    pub offset: u32,
}

/// The last stripe that a log may have.
const LAST_STRIPE: u64 = 281_474_976_710_656;

/// Where `len` bytes that stay together go. None where that is above the last stripe.
fn room_at(room: u32, at: Place, len: u32) -> Option<Place>
    requires within { at.offset ≤ room }
    requires fits { len ≤ room }
    requires lasting { at.stripe ≤ last_stripe }
    ensures found { IfSome result (λ there. there ≡ room_at room at len) }
    ensures room { IfSome result (λ there. there.offset + len ≤ room) }
    ensures last { IfSome result (λ there. there.stripe ≤ last_stripe) }
    ensures none { IfNone result (last_stripe < (room_at room at len).stripe) }
{
    if len <= room - at.offset {
        return Some(at);
    }
    if at.stripe == LAST_STRIPE {
        return None;
    }
    Some(Place {
        stripe: at.stripe + 1,
        offset: 0,
    })
}

/// The place behind a meta part of `len` bytes. None where that is above the last stripe.
fn meta_end(room: u32, from: Place, len: u32) -> Option<Place>
    requires some { 0 < room }
    requires small { room ≤ 983040 }
    requires within { from.offset ≤ room }
    requires lasting { from.stripe ≤ last_stripe }
    ensures found { IfSome result (λ end. end ≡ meta_end room from len) }
    ensures room { IfSome result (λ end. end.offset ≤ room) }
    ensures last { IfSome result (λ end. end.stripe ≤ last_stripe) }
    ensures none { IfNone result (last_stripe < (meta_end room from len).stripe) }
{
    let mut at = from;
    let mut left = len;
    while left > 0 {
        let there = room_at(room, at, 1)?;
        let n = left.min(room - there.offset);
        at = Place {
            stripe: there.stripe,
            offset: there.offset + n,
        };
        left -= n;
    }
    Some(at)
}

/// The place behind blocks. None where that is above the last stripe.
fn blocks_end(room: u32, from: Place, blocks: &[u32]) -> Option<Place>
    requires fit { AreBlocks room blocks.now }
    requires small { room ≤ 983040 }
    requires within { from.offset ≤ room }
    requires lasting { from.stripe ≤ last_stripe }
    ensures found { IfSome result (λ end. end ≡ blocks_end room from blocks.now) }
    ensures last { IfSome result (λ end. end.stripe ≤ last_stripe) }
    ensures none { IfNone result (last_stripe < (blocks_end room from blocks.now).stripe) }
{
    let mut at = from;
    for len in blocks {
        let there = room_at(room, at, *len)?;
        at = Place {
            stripe: there.stripe,
            offset: there.offset + *len,
        };
    }
    Some(at)
}

/// Whether a batch that goes next at a place ends above the last stripe.
pub(crate) fn goes_above(room: u32, from: Place, meta: u32, blocks: &[u32]) -> bool
    requires fit { AreBlocks room blocks.now }
    requires some { 0 < room }
    requires small { room ≤ 983040 }
    requires within { from.offset ≤ room }
    ensures { MatchBool result
        (last_stripe < (blocks_end room (meta_end room from meta) blocks.now).stripe)
        ((blocks_end room (meta_end room from meta) blocks.now).stripe ≤ last_stripe) }
{
    if from.stripe > LAST_STRIPE {
        return true;
    }
    let Some(behind) = meta_end(room, from, meta) else {
        return true;
    };
    if blocks_end(room, behind, blocks).is_none() {
        return true;
    }
    false
}
