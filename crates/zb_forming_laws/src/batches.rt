ghost use Rattle.std.specs.Prelude.{◌≡◌, ℕ, ◌<◌, false, List, None, Ok};
ghost use Rattle.std.specs.List.{AllByRecursion};
ghost use Rattle.zb_types.specs.declared.ids.LogId.{LogId};
ghost use Rattle.zb_types.specs.declared.ids.Ptr.{Ptr};
ghost use Rattle.zb_types.specs.declared.ids.Piece.{Piece};
ghost use Rattle.zb_batch.specs.declared.batch.Batch.{Batch};
ghost use Rattle.zb_tables.specs.Tables.{Contents, EachFile, EndsInFile, Tables};
ghost use Rattle.zb_tables.specs.Fold.{Shelf, done_ops, shelf_of};
ghost use Rattle.zb_tables.specs.Leaving.{IsOfUpdate};
ghost use Rattle.zb_tables.specs.Checkpoint.{AreTables};
ghost use Rattle.zb_tables.specs.Taking.{Sizes, any_wears, commit_refusal};
ghost use Rattle.zb_sound.specs.Committing.{IsOfUpdates};
ghost use Rattle.zb_basis.specs.declared.calls.Numbered.{Numbered};
ghost use Rattle.zb_basis.specs.declared.basis.Basis.{Basis};
ghost use Rattle.zb_basis.specs.Forming.{IsBatchOf};
ghost use Rattle.zb_basis.specs.Runs.{run_of};
ghost use Rattle.zb_forming_laws.specs.Resting.{Rests, updates_of};

/// A batch that was formed of the first run of what a client keeps is one of these calls' updates, at the tables'
/// versions and with the merged blocks: where it rests on current lookups and on the blocks that pointers name, and the
/// tables don't refuse it. Each of its operations is an update's; and what the tables don't refuse is neither stale nor
/// would it raise a version past its last value.
pub fn formed_batches_are_of_updates()
    ensures exact { (z : Sizes) (new : Contents) (t : Tables) (kept calls : List Numbered) (basis : Basis) (log : LogId) (number generation : ℕ)
        (batch : Batch) (pieces : List Piece) (ptrs : List Ptr) (blocks : List (List ℕ))
        → 0 < z.block → AreTables z t → EachFile (EndsInFile z.block) t.files
        → calls ≡ run_of kept → IsBatchOf z.block log number calls basis batch ptrs blocks
        → Rests z.block new t calls basis ptrs blocks
        → commit_refusal z.block t batch pieces generation ≡ None
        → IsOfUpdates z new t batch (updates_of calls) }
    ensures kinds { (b : ℕ) (new : Contents) (t : Tables) (calls : List Numbered) (basis : Basis) (log : LogId) (number : ℕ)
        (batch : Batch) (ptrs : List Ptr) (blocks : List (List ℕ))
        → IsBatchOf b log number calls basis batch ptrs blocks → Rests b new t calls basis ptrs blocks
        → AllByRecursion IsOfUpdate batch.ops }
    ensures fresh { (b : ℕ) (t : Tables) (batch : Batch) (pieces : List Piece) (generation : ℕ)
        → commit_refusal b t batch pieces generation ≡ None
        → (any_wears b batch.ops (shelf_of t) ≡ false) × ((after : Shelf) × (done_ops b batch.ops (shelf_of t) ≡ Ok after)) }
{}
