ghost use Rattle.std.specs.Prelude.{◌≡◌, ℕ, ◌+◌, List, length, Ok};
ghost use Rattle.std.specs.List.{AllByRecursion};
ghost use Rattle.zb_batch.specs.declared.batch.Op.{Op};
ghost use Rattle.zb_tables.specs.Fold.{Shelf, done_ops};
ghost use Rattle.zb_tables.specs.Tables.{Tables};
ghost use Rattle.zb_tables.specs.Taking.{Sizes, stripe_room};
ghost use Rattle.zb_tables.specs.Checkpoint.{AreTables};
ghost use Rattle.zb_basis.specs.declared.asks.Ask.{Ask};
ghost use Rattle.zb_basis.specs.Looking.{AreFoundFor};
ghost use Rattle.zb_turns.specs.Turns.{all_found, IsReplied};

/// Each operation of a batch has one reply, but for the cleaner's.
pub fn each_operation_is_replied()
    ensures { (b : ℕ) (ops : List Op) (s after : Shelf)
        → AllByRecursion IsReplied ops → done_ops b ops s ≡ Ok after → length after.replies ≡ length s.replies + length ops }
{}

/// What a lookup finds of tables that are in form fits what was asked: a version and a length within their limits, and
/// blocks by rising numbers, of those that were asked for, which lie within their stripes.
pub fn lookups_find_what_is_asked()
    ensures { (z : Sizes) (t : Tables) (asks : List Ask)
        → AreTables z t → AreFoundFor z.block (stripe_room z) asks (all_found t asks) }
{}
