ghost use Rattle.std.specs.Prelude.{◌≡◌, ℕ, ◌+◌, ◌<◌, Some, IsSomeAnd};
ghost use Rattle.zb_types.specs.declared.ids.FragId.{FragId};
ghost use Rattle.zb_slots.specs.Slots.{Slot, Stored, full_slot};
ghost use Rattle.zb_index.specs.Gathering.{ShowsHolder, IsHeldBy, AreHolders, TellsBad, IsNewestAt};
ghost use Rattle.zb_slots.specs.Shown.{Says};
ghost use Rattle.zb_index.specs.Twins.{NoneIsBad};

use crate::spot::Spot;
use zb_cell::following;
use zb_slots::Header;
use zb_types::FragId;

/// Where a fragment stands, and whether it is a parity.
#[derive(Clone, Copy)]
pub(crate) struct Holder {
    pub(crate) spot: Spot,
    pub(crate) is_parity: bool,
}

/// The slots that hold one name: one, two in order, or the first of more.
#[derive(Clone, Copy)]
pub(crate) enum Holders {
    One { first: Holder },
    Two { first: Holder, second: Holder },
    More { first: Holder },
}

/// The name that a slot holds by its header, and its holder.
pub(crate) fn holder_of(header: &Header, slot: u32) -> Option<(FragId, Holder)>
    ensures { (held : Slot) → Says (Some header.now) held → ShowsHolder slot held result }
{
    let (id, turn, len, is_parity) = match *header {
        Header::Free => return None,
        Header::Share { id, len } => (id, 0, len, false),
        Header::Parity { id, turn, len } => (id, turn, len, true),
    };
    let spot = Spot { slot, turn, len };
    Some((id, Holder { spot, is_parity }))
}

impl Holders {
    /// The holders with one more, in a later slot.
    pub(crate) fn joined(&self, holder: Holder) -> Holders
        ensures { (n : ℕ) (slots : ℕ → Slot) (id : FragId) → AreHolders n slots id (Some self.now)
            → IsHeldBy n (slots n) id holder → AreHolders (n + 1) slots id (Some result) }
    {
        match *self {
            Holders::One { first } => Holders::Two {
                first,
                second: holder,
            },
            Holders::Two { first, .. } | Holders::More { first } => Holders::More { first },
        }
    }

    /// Whether one of these slots is bad.
    pub(crate) fn is_bad(&self, slot: u32) -> bool
        ensures { (n : ℕ) (slots : ℕ → Slot) (stored : Stored) → AreHolders n slots stored.id (Some self.now)
            → slot < n → slots slot ≡ full_slot stored → TellsBad slots n slot result }
    {
        match *self {
            Holders::One { .. } => false,
            Holders::Two { first, second } => {
                let are_parities = first.is_parity && second.is_parity;
                let is_turned = are_parities && first.spot.turn != second.spot.turn;
                slot != first.spot.slot && !is_turned
            }
            Holders::More { first } => slot != first.spot.slot,
        }
    }

    /// The spot that the name stands for, where no slot is bad.
    pub(crate) fn newest(&self) -> Option<Spot>
        ensures { (n : ℕ) (slots : ℕ → Slot) (id : FragId) → AreHolders n slots id (Some self.now)
            → NoneIsBad slots n → IsSomeAnd result (IsNewestAt n slots id) }
    {
        match *self {
            Holders::One { first } => Some(first.spot),
            Holders::Two { first, second } => {
                if second.spot.turn == following(first.spot.turn) {
                    Some(second.spot)
                } else {
                    Some(first.spot)
                }
            }
            Holders::More { .. } => None,
        }
    }
}
