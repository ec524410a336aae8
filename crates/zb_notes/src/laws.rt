ghost use Rattle.std.specs.Prelude.{◌≡◌, ◌+◌, ℕ, List, ◌∷◌, Ok};
ghost use Rattle.zb_types.specs.declared.ids.LogId.{LogId};
ghost use Rattle.zb_types.specs.declared.ids.Piece.{Piece};
ghost use Rattle.zb_delta.specs.declared.delta.Delta.{Delta};
ghost use Rattle.zb_batch.specs.declared.batch.Batch.{Batch};
ghost use Rattle.zb_tables.specs.Tables.{Tables};
ghost use Rattle.zb_tables.specs.Fold.{Shelf, committed, done_ops, shelf_of};
ghost use Rattle.zb_tables.specs.Taking.{MayCommit, Sizes};
ghost use Rattle.zb_tables.specs.Checkpoint.{AreTables};
ghost use Rattle.zb_usage.specs.Uses.{bytes_in, stripe_use};
ghost use Rattle.zb_usage.specs.Noting.{Counts, come, gone};
ghost use Rattle.zb_usage.specs.Seen.{CountsUse, SeenUsage, counted};
ghost use Rattle.zb_notes.specs.Notes.{notes_of};
ghost use Rattle.zb_notes.specs.Notable.{OpsNotable, all_come, all_gone};

/// From the tables to those after a batch, what comes to each stripe and goes from it by the batch's notes is just the
/// difference of its use: what is set and what is dropped, with each reject.
pub fn notes_tell_the_use()
    ensures { (z : Sizes) (t : Tables) (batch : Batch) (pieces : List Piece) (after : Shelf)
        → AreTables z t → MayCommit z t batch pieces → OpsNotable z.block batch.ops (shelf_of t) → done_ops z.block batch.ops (shelf_of t) ≡ Ok after
        → (log : LogId) (stripe : ℕ) → stripe_use (committed t batch.log batch.number pieces after) log stripe + all_gone log stripe (notes_of z.block t batch)
        ≡ stripe_use t log stripe + all_come log stripe (notes_of z.block t batch) }
{}

/// Notes that are taken one behind the other come to their sums.
pub fn notes_add_up()
    ensures { (log : LogId) (stripe : ℕ) (note : Delta) (notes : List Delta) (old mid new : ℕ)
        → Counts old (bytes_in log stripe (come note)) (bytes_in log stripe (gone note)) mid → Counts mid (all_come log stripe notes) (all_gone log stripe notes) new
        → Counts old (all_come log stripe (note ∷ notes)) (all_gone log stripe (note ∷ notes)) new }
{}

/// Counts that were the use, and took notes that tell how it changes, are the use again.
pub fn counts_stay_the_use()
    ensures { (t after : Tables) (old new : SeenUsage) (notes : List Delta) → CountsUse old t
        → ((log : LogId) (stripe : ℕ) → stripe_use after log stripe + all_gone log stripe notes ≡ stripe_use t log stripe + all_come log stripe notes)
        → ((log : LogId) (stripe : ℕ) → Counts (counted old log stripe) (all_come log stripe notes) (all_gone log stripe notes) (counted new log stripe))
        → CountsUse new after }
{}
