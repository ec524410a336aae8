ghost use Rattle.std.specs.Prelude.{◌≡◌, ℕ, false, List, [], ◌∷◌, Ok};
ghost use Rattle.std.specs.List.{AllByRecursion};
ghost use Rattle.zb_types.specs.declared.ids.LogId.{LogId};
ghost use Rattle.zb_types.specs.declared.ids.Piece.{Piece};
ghost use Rattle.zb_types.specs.declared.tables.Found.{Found};
ghost use Rattle.zb_delta.specs.declared.delta.Delta.{Delta};
ghost use Rattle.zb_batch.specs.declared.batch.Op.{Op};
ghost use Rattle.zb_batch.specs.declared.batch.Op.TheVariants.{Clean};
ghost use Rattle.zb_tables.specs.Tables.{Contents, EachFile, PointsIn, SameIn, Tables};
ghost use Rattle.zb_tables.specs.Fold.{Shelf, committed, done_ops, shelf_of};
ghost use Rattle.zb_tables.specs.Checkpoint.{AreTables};
ghost use Rattle.zb_tables.specs.Leaving.{IsOfUpdate};
ghost use Rattle.zb_tables.specs.Pointing.{AllCopies};
ghost use Rattle.zb_tables.specs.Taking.{Sizes, any_wears};
ghost use Rattle.zb_sound.specs.LookupsCurrent.{SameFound};
ghost use Rattle.zb_basis.specs.declared.calls.Numbered.{Numbered};
ghost use Rattle.zb_forming_laws.specs.Resting.{AreCurrent};

/// The lookups for the calls of a batch stay current together: where contents grow, at a commit of updates and one of
/// copies, and wherever names and files are as before.
pub fn lookups_of_a_batch_stay_current()
    ensures contents { (b : ℕ) (contents new : Contents) (t : Tables) (calls : List Numbered) (founds : List Found)
        → AllByRecursion (SameFound contents new) founds → SameIn t.held contents new → EachFile (PointsIn t.held) t.files
        → AreCurrent b contents t calls founds → AreCurrent b new t calls founds }
    ensures updates { (z : Sizes) (b : ℕ) (contents : Contents) (t : Tables) (log : LogId) (number : ℕ) (pieces : List Piece) (ops : List Op) (after : Shelf)
        (calls : List Numbered) (founds : List Found)
        → done_ops b ops (shelf_of t) ≡ Ok after → AllByRecursion IsOfUpdate ops → any_wears b ops (shelf_of t) ≡ false → AreTables z t
        → AreCurrent b contents t calls founds → AreCurrent b contents (committed t log number pieces after) calls founds }
    ensures copies { (b : ℕ) (contents : Contents) (t : Tables) (log : LogId) (number : ℕ) (pieces : List Piece) (deltas : List Delta) (after : Shelf)
        (calls : List Numbered) (founds : List Found)
        → done_ops b (Clean deltas ∷ []) (shelf_of t) ≡ Ok after → AllCopies contents deltas
        → AreCurrent b contents t calls founds → AreCurrent b contents (committed t log number pieces after) calls founds }
    ensures beside { (b : ℕ) (contents : Contents) (t new : Tables) (calls : List Numbered) (founds : List Found)
        → new.names ≡ t.names → new.files ≡ t.files → AreCurrent b contents t calls founds → AreCurrent b contents new calls founds }
{}
