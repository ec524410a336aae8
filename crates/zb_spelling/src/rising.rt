ghost use Rattle.std.specs.Prelude.{◌≡◌, ◌↔◌, ℕ, map, IsTrue};
ghost use Rattle.std.specs.List.Sorted.{IsStrictlySortedBy};
ghost use Rattle.std.specs.Ordering.{nat_cmp, is_lt};
ghost use Rattle.std.specs.declared.cmp.Ordering.{Ordering};
ghost use Rattle.zb_types.specs.declared.tables.HeldUse.{HeldUse as PlainHeld};
ghost use Rattle.zb_tables.specs.Checkpoint.{held_cmp};
ghost use Rattle.zb_spelling.specs.Limits.{IsTransitive, rise};

use crate::rows::FileRow;
use zb_log_tables::Log;
use zb_types::{HeldUse, Ptr};

/// An item of a list that is in order.
pub(crate) trait Rising {
    ghost Key: { Type 0 };

    ghost key: { Self → Key };

    ghost order: { Key → Key → Ordering };

    /// Whether it stands before another.
    fn is_before(&self, other: &Self) -> bool
        ensures { result ≡ is_lt (order (key self.now) (key other.now)) };
}

impl Rising for (u32, Ptr) {
    ghost Key = { ℕ };

    ghost key = { λ block. block.0 };

    ghost order = { nat_cmp };

    fn is_before(&self, other: &(u32, Ptr)) -> bool {
        self.0 < other.0
    }
}

impl Rising for FileRow {
    ghost Key = { ℕ };

    ghost key = { λ row. row.fid.0 };

    ghost order = { nat_cmp };

    fn is_before(&self, other: &FileRow) -> bool {
        self.fid.0 < other.fid.0
    }
}

impl Rising for Log {
    ghost Key = { ℕ };

    ghost key = { λ log. log.number };

    ghost order = { nat_cmp };

    fn is_before(&self, other: &Log) -> bool {
        self.number < other.number
    }
}

impl Rising for HeldUse {
    ghost Key = { PlainHeld };

    ghost key = { λ held. held };

    ghost order = { held_cmp };

    fn is_before(&self, other: &HeldUse) -> bool {
        self.log.0 < other.log.0 || (self.log.0 == other.log.0 && self.stripe < other.stripe)
    }
}

// Whether each item stands before the next.
fn step_up<T: Rising>(items: &[T]) -> bool
    ensures { result ≡ rise T.order (map T.key items.now) }
{
    let mut rest = items;
    while let [item, others @ ..] = rest {
        if let [next, ..] = others {
            if !item.is_before(next) {
                return false;
            }
        }
        rest = others;
    }
    true
}

/// Whether the items are in order, each once.
pub(crate) fn rise<T: Rising>(items: &[T]) -> bool
    requires { IsTransitive T.order }
    ensures { IsTrue result ↔ IsStrictlySortedBy T.order (map T.key items.now) }
{
    step_up(items)
}
