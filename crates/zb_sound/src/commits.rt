ghost use Rattle.std.specs.Prelude.{◌≡◌, ℕ, ◌<◌, All, List, [], ◌∷◌, Ok};
ghost use Rattle.zb_types.specs.declared.ids.LogId.{LogId};
ghost use Rattle.zb_types.specs.declared.ids.Piece.{Piece};
ghost use Rattle.zb_types.specs.declared.calls.Call.{Call};
ghost use Rattle.zb_types.specs.Tree.{Tree};
ghost use Rattle.zb_types.specs.declared.tables.HeldUse.{HeldUse};
ghost use Rattle.zb_holding.specs.Holding.{View};
ghost use Rattle.zb_stripe.specs.declared.flush.Flush.{Flush};
ghost use Rattle.zb_stripe_laws.specs.PartAtWork.{StripesDiffer};
ghost use Rattle.zb_delta.specs.declared.delta.Delta.{Delta};
ghost use Rattle.zb_batch.specs.declared.batch.Batch.{Batch};
ghost use Rattle.zb_batch.specs.declared.batch.Op.TheVariants.{Clean};
ghost use Rattle.zb_entries.specs.declared.entry.Entry.TheVariants.{Commit};
ghost use Rattle.zb_tables.specs.Tables.{Contents, SameIn, Tables};
ghost use Rattle.zb_tables.specs.Fold.{Shelf, committed, done_ops, held_with_all, shelf_of};
ghost use Rattle.zb_tables.specs.Pointing.{AllCopies};
ghost use Rattle.zb_tables.specs.Replay.{Platter, with_entry};
ghost use Rattle.zb_tables.specs.Shown.{replies_through, tree_through};
ghost use Rattle.zb_tables.specs.Taking.{Sizes};
ghost use Rattle.zb_recovery.specs.Missing.{Servers};
ghost use Rattle.zb_recovery.specs.Agreeing.{ViewAgrees};
ghost use Rattle.zb_sound.specs.Standing.{StandFor};
ghost use Rattle.zb_sound.specs.Delivering.{PartFits, PartStands, with_parts};
ghost use Rattle.zb_sound.specs.Committing.{AreInFlush, IsFlushed, IsOfUpdates};

/// Once a flush stands whose parts have the pieces of a batch, each held stripe stands up to the end that the pieces
/// raise it to.
pub fn flush_is_flushed()
    ensures { (z : Sizes) (v : View) (contents : Contents) (held : List HeldUse) (flush : Flush) (born : ℕ) (pieces : List Piece)
        → ViewAgrees v contents held
        → StripesDiffer flush.parts → All (PartFits z contents held flush.log) flush.parts → All (PartStands v flush.log) flush.parts
        → AreInFlush flush pieces
        → ViewAgrees v (with_parts contents flush.log flush.parts) (held_with_all flush.log born pieces held) }
{}

/// A commit of updates takes the tree to the tree after them, with the plain tree's replies.
pub fn commit_takes_tree()
    ensures { (z : Sizes) (contents new : Contents) (p : Platter) (st : Servers) (log : LogId) (number generation : ℕ) (pieces : List Piece) (batch : Batch)
        (tables : Tables) (tree : Tree) (updates : List Call)
        → StandFor z contents p st tables tree
        → 0 < z.block → IsFlushed z contents new st tables log number generation pieces batch
        → IsOfUpdates z new tables batch updates
        → (after : Shelf) × (done_ops z.block batch.ops (shelf_of tables) ≡ Ok after)
        × (after.replies ≡ replies_through tree updates)
        × StandFor z new (with_entry p (Commit log number generation pieces)) st (committed tables log number pieces after) (tree_through tree updates) }
{}

/// While a batch is committed, the file manager's platter without its entry stands, with the servers, for the tree before
/// it, and with its entry for the tree after it.
pub fn commit_may_be_cut_off()
    ensures { (z : Sizes) (contents new : Contents) (p : Platter) (st : Servers) (log : LogId) (number generation : ℕ) (pieces : List Piece) (batch : Batch)
        (tables : Tables) (tree : Tree) (updates : List Call)
        → StandFor z contents p st tables tree
        → 0 < z.block → IsFlushed z contents new st tables log number generation pieces batch
        → IsOfUpdates z new tables batch updates
        → StandFor z new p st tables tree
        × ((after : Shelf) × StandFor z new (with_entry p (Commit log number generation pieces)) st (committed tables log number pieces after) (tree_through tree updates)) }
{}

/// A commit of copies leaves the tree.
pub fn clean_leaves_tree()
    ensures { (z : Sizes) (contents new : Contents) (p : Platter) (st : Servers) (log : LogId) (number generation : ℕ) (pieces : List Piece) (batch : Batch)
        (tables : Tables) (tree : Tree) (deltas : List Delta)
        → StandFor z contents p st tables tree
        → IsFlushed z contents new st tables log number generation pieces batch
        → batch.ops ≡ Clean deltas ∷ [] → AllCopies new deltas
        → (after : Shelf) × (done_ops z.block batch.ops (shelf_of tables) ≡ Ok after)
        × StandFor z new (with_entry p (Commit log number generation pieces)) st (committed tables log number pieces after) tree }
{}
