ghost use Rattle.std.specs.Prelude.{◌≡◌, ◌⊎◌, ℕ, ◌+◌, ◌-◌, ◌≤◌, ◌<◌, false, List, [], ◌∷◌, take, Option, Some, None, Ok};
ghost use Rattle.std.specs.List.{AllByRecursion};
ghost use Rattle.zb_types.specs.declared.ids.LogId.{LogId};
ghost use Rattle.zb_types.specs.declared.ids.Ptr.{Ptr};
ghost use Rattle.zb_types.specs.declared.ids.Piece.{Piece};
ghost use Rattle.zb_types.specs.declared.ids.ServerId.{ServerId};
ghost use Rattle.zb_types.specs.declared.nodes.Members.{Members};
ghost use Rattle.zb_types.specs.declared.tables.Found.{Found};
ghost use Rattle.zb_types.specs.declared.tables.HeldUse.{HeldUse};
ghost use Rattle.zb_types.specs.Keyed.{look};
ghost use Rattle.zb_types.specs.Tree.{Tree};
ghost use Rattle.zb_holding.specs.Holding.{View, standing, away_at};
ghost use Rattle.zb_delta.specs.declared.delta.Delta.{Delta};
ghost use Rattle.zb_batch.specs.declared.batch.Op.{Op};
ghost use Rattle.zb_batch.specs.declared.batch.Op.TheVariants.{Clean};
ghost use Rattle.zb_tables.specs.Tables.{Contents, FileState, SameIn, Tables, bytes_at, shown_bytes, EachFile, EndsInFile, IsCommitted, PointsIn, held_at};
ghost use Rattle.zb_tables.specs.Checkpoint.{AreTables};
ghost use Rattle.zb_tables.specs.Fold.{Shelf, committed, done_ops, shelf_of};
ghost use Rattle.zb_tables.specs.Finding.{found};
ghost use Rattle.zb_tables.specs.Leaving.{IsOfUpdate};
ghost use Rattle.zb_tables.specs.Looking.{IsCurrent};
ghost use Rattle.zb_tables.specs.Pointing.{AllCopies};
ghost use Rattle.zb_tables.specs.Replay.{Platter};
ghost use Rattle.zb_tables.specs.Spelled.{new_blocks};
ghost use Rattle.zb_tables.specs.Taking.{Sizes, any_wears};
ghost use Rattle.zb_recovery.specs.Missing.{Servers};
ghost use Rattle.zb_recovery.specs.Agreeing.{StripeAgrees};
ghost use Rattle.zb_sound.specs.Standing.{StandFor, seen};
ghost use Rattle.zb_sound.specs.Delivering.{allowed, any_one, Missing, Misses};
ghost use Rattle.zb_sound.specs.LookupsCurrent.{AreFetched, FileIs, IsCurrentFile, LookupIsCurrent, RemainsIn, SameFound, ShowsFile, StripeStaysRight};

/// A lookup stays current: as it is answered; where contents grow; at a commit of updates and one of copies; and wherever
/// names and files are as before, as at each other entry.
pub fn lookups_stay_current()
    ensures answered { (z : Sizes) (contents : Contents) (t : Tables) (fid first count : ℕ)
        → AreTables z t → LookupIsCurrent contents t fid first count (found t fid first count) }
    ensures contents { (contents new : Contents) (t : Tables) (fid first count : ℕ) (found : Found)
        → SameFound contents new found → SameIn t.held contents new → EachFile (PointsIn t.held) t.files
        → LookupIsCurrent contents t fid first count found → LookupIsCurrent new t fid first count found }
    ensures updates { (z : Sizes) (b : ℕ) (contents : Contents) (t : Tables) (log : LogId) (number : ℕ) (pieces : List Piece) (ops : List Op) (after : Shelf)
        (fid first count : ℕ) (found : Found)
        → done_ops b ops (shelf_of t) ≡ Ok after → AllByRecursion IsOfUpdate ops → any_wears b ops (shelf_of t) ≡ false
        → AreTables z t
        → LookupIsCurrent contents t fid first count found → LookupIsCurrent contents (committed t log number pieces after) fid first count found }
    ensures copies { (b : ℕ) (contents : Contents) (t : Tables) (log : LogId) (number : ℕ) (pieces : List Piece) (deltas : List Delta) (after : Shelf)
        (fid first count : ℕ) (found : Found)
        → done_ops b (Clean deltas ∷ []) (shelf_of t) ≡ Ok after → AllCopies contents deltas
        → LookupIsCurrent contents t fid first count found → LookupIsCurrent contents (committed t log number pieces after) fid first count found }
    ensures beside { (contents : Contents) (t new : Tables) (fid first count : ℕ) (found : Found)
        → new.names ≡ t.names → new.files ≡ t.files
        → LookupIsCurrent contents t fid first count found → LookupIsCurrent contents new fid first count found }
    ensures merges { (contents : Contents) (t : Tables) (fid first count : ℕ) (found : Found) (file : FileState) (deltas : List Delta)
        → LookupIsCurrent contents t fid first count found → 1 ≤ found.version → look fid t.files ≡ Some file → file.version ≡ found.version
        → ((k : ℕ) (p : Ptr) → look k (new_blocks deltas) ≡ Some p → (first ≤ k) × (k < first + count))
        → IsCurrent contents found.blocks file deltas }
{}

/// What a lookup has found shows its file as it was when it was answered, so that a read is answered from that moment's tree:
/// it does at once, and goes on so while its pointers name the same bytes.
pub fn lookups_show_their_files()
    ensures answered { (b : ℕ) (contents : Contents) (t : Tables) (fid first count : ℕ) (file : FileState)
        → 0 < b → EachFile (EndsInFile b) t.files → look fid t.files ≡ Some file
        → ShowsFile b contents first count (found t fid first count) (shown_bytes b contents file) }
    ensures contents { (b : ℕ) (contents new : Contents) (first count : ℕ) (found : Found) (bytes : List ℕ)
        → SameFound contents new found → ShowsFile b contents first count found bytes → ShowsFile b new first count found bytes }
{}

/// What was fetched stays what its pointers name where these name the same bytes; pointers into what is held, and into
/// stripes whose contents stay, do.
pub fn fetched_blocks_stay()
    ensures contents { (contents new : Contents) (blocks : List (Ptr × List ℕ))
        → AllByRecursion (λ e. bytes_at contents e.0 ≡ bytes_at new e.0) blocks → AreFetched contents blocks → AreFetched new blocks }
    ensures pointer { (contents new : Contents) (held : List HeldUse) (p : Ptr)
        → SameIn held contents new → IsCommitted held p ⊎ (new p.log p.stripe ≡ contents p.log p.stripe) → bytes_at contents p ≡ bytes_at new p }
{}

/// What remains of a stripe stays right: of a stripe that is held, and so of one that is given up; where no more servers may
/// be missing and each fragment that is looked at is as it was or gone, as at deletes and at requests about other stripes;
/// where the contents are the same up to the end; and where all servers are looked at again, of which the one that was
/// missing has nothing of the stripe.
pub fn old_stripes_stay_right()
    ensures held { (z : Sizes) (contents : Contents) (p : Platter) (st : Servers) (tables : Tables) (tree : Tree) (log : LogId) (stripe : ℕ) (h : HeldUse)
        → StandFor z contents p st tables tree → held_at log stripe tables.held ≡ Some h
        → StripeStaysRight z contents st (allowed tables.members) log stripe h.end }
    ensures stays { (z : Sizes) (contents new_contents : Contents) (st new : Servers) (who after : Missing) (log : LogId) (stripe end : ℕ)
        → ((x : Option ServerId) → Misses z.servers new after x → Misses z.servers st who x)
        → ((x : Option ServerId) (k : ℕ) → Misses z.servers new after x → away_at z.servers x log stripe k ≡ false
        → (standing z.servers new.maps log stripe k ≡ standing z.servers st.maps log stripe k) ⊎ (standing z.servers new.maps log stripe k ≡ None))
        → take end (new_contents log stripe) ≡ take end (contents log stripe)
        → StripeStaysRight z contents st who log stripe end → StripeStaysRight z new_contents new after log stripe end }
    ensures all { (z : Sizes) (contents : Contents) (st : Servers) (log : LogId) (stripe end : ℕ) (a : ServerId)
        → RemainsIn (seen z st (Some a)) contents log stripe end
        → ((k : ℕ) → away_at z.servers (Some a) log stripe k ≡ false ⊎ (standing z.servers st.maps log stripe k ≡ None))
        → StripeStaysRight z contents st any_one log stripe end }
{}
