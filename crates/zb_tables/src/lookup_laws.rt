ghost use Rattle.std.specs.Prelude.{◌≡◌, ◌≢◌, ◌⊎◌, ℕ, ◌+◌, ◌<◌, ◌≤◌, false, List, [], ◌∷◌, Option, Some, None, Ok, IsTrue, IfSome, IsSomeAnd};
ghost use Rattle.std.specs.List.{AllByRecursion};
ghost use Rattle.zb_types.specs.declared.ids.Fid.{Fid};
ghost use Rattle.zb_types.specs.declared.ids.Ptr.{Ptr};
ghost use Rattle.zb_types.specs.declared.tables.HeldUse.{HeldUse};
ghost use Rattle.zb_types.specs.Keyed.{look};
ghost use Rattle.zb_types.specs.Apply.{max_file};
ghost use Rattle.zb_delta.specs.declared.delta.Delta.{Delta};
ghost use Rattle.zb_batch.specs.declared.batch.Op.{Op};
ghost use Rattle.zb_batch.specs.declared.batch.Op.TheVariants.{Write, Cut, Clean};
ghost use Rattle.zb_batch.specs.Batches.{is_company};
ghost use Rattle.zb_tables.specs.Tables.{Contents, FileState, IsCommitted, SameIn, bytes_at, last_value};
ghost use Rattle.zb_tables.specs.Fold.{Files, Shelf, after_cut, after_write, all_moved, below, blocks_in, done_op, done_ops, set_all};
ghost use Rattle.zb_tables.specs.Looking.{SameBlock};
ghost use Rattle.zb_tables.specs.Pointing.{AllCopies};
ghost use Rattle.zb_tables.specs.Taking.{any_wears, wears};
ghost use Rattle.zb_tables.specs.Leaving.{HasCopies, IsOfUpdate};

/// What a committed pointer names stays while stripes grow, and so does that two blocks are the same.
pub fn committed_pointers_stay()
    ensures bytes { (held : List HeldUse) (one other : Contents) (p : Ptr)
        → SameIn held one other → IsCommitted held p → bytes_at one p ≡ bytes_at other p }
    ensures block { (held : List HeldUse) (one other : Contents) (p q : Option Ptr)
        → SameIn held one other → IfSome p (IsCommitted held) → IfSome q (IsCommitted held) → SameBlock one p q → SameBlock other p q }
{}

/// Moving blocks to copies of them leaves each file that is there at its version and length, with each block as it was
/// or a copy of it, and makes no file.
pub fn clean_leaves_blocks()
    ensures there { (contents : Contents) (deltas : List Delta) (files : Files) (n : ℕ) (old : FileState)
        → AllCopies contents deltas → look n files ≡ Some old → IsSomeAnd (look n (all_moved deltas files)) (HasCopies contents old) }
    ensures gone { (deltas : List Delta) (files : Files) (n : ℕ) → look n files ≡ None → look n (all_moved deltas files) ≡ None }
{}

/// Of a file that is there an operation of an update leaves nothing, the file as it was, or a file at the next version;
/// so a batch of updates leaves a file that keeps its version as it was.
pub fn updates_leave_files()
    ensures op { (b : ℕ) (s after : Shelf) (o : Op) (n : ℕ) (old new : FileState)
        → IsOfUpdate o → wears s o ≡ false → done_op b s o ≡ Ok after → n < s.names.next → old.version ≤ last_value
        → look n s.files ≡ Some old → look n after.files ≡ Some new → (new ≡ old) ⊎ (new.version ≡ old.version + 1) }
    ensures batch { (b : ℕ) (s after : Shelf) (ops : List Op) (n : ℕ) (old new : FileState)
        → AllByRecursion IsOfUpdate ops → any_wears b ops s ≡ false → done_ops b ops s ≡ Ok after → n < s.names.next → old.version ≤ last_value
        → look n s.files ≡ Some old → look n after.files ≡ Some new → (new ≡ old) ⊎ (old.version < new.version) }
    ensures same { (b : ℕ) (s after : Shelf) (ops : List Op) (n : ℕ) (old new : FileState)
        → AllByRecursion IsOfUpdate ops → any_wears b ops s ≡ false → done_ops b ops s ≡ Ok after → n < s.names.next → old.version ≤ last_value
        → look n s.files ≡ Some old → look n after.files ≡ Some new → new.version ≡ old.version → new ≡ old }
    ensures gone { (b : ℕ) (s after : Shelf) (ops : List Op) (n : ℕ)
        → AllByRecursion IsOfUpdate ops → any_wears b ops s ≡ false → done_ops b ops s ≡ Ok after → n < s.names.next
        → look n s.files ≡ None → look n after.files ≡ None }
{}

/// A batch has one clean, or operations of updates alone; and it leaves a file that keeps its version with each block
/// as it was or a copy of it.
pub fn batch_leaves_blocks()
    ensures kind { (ops : List Op) → IsTrue (is_company ops) → ((deltas : List Delta) × (ops ≡ Clean deltas ∷ [])) ⊎ AllByRecursion IsOfUpdate ops }
    ensures blocks { (b : ℕ) (contents : Contents) (s after : Shelf) (ops : List Op) (n : ℕ) (old new : FileState)
        → IsTrue (is_company ops) → ((deltas : List Delta) → ops ≡ Clean deltas ∷ [] → AllCopies contents deltas)
        → any_wears b ops s ≡ false → done_ops b ops s ≡ Ok after → n < s.names.next → old.version ≤ last_value
        → look n s.files ≡ Some old → look n after.files ≡ Some new → new.version ≡ old.version → HasCopies contents old new }
{}

/// A write that isn't stale changes its file, at the file's version; where the file is gone or would be too long, files
/// are as they were; and other files are.
pub fn write_leaves_files()
    ensures file { (b : ℕ) (s after : Shelf) (call : ℕ) (fid : Fid) (version offset len : ℕ) (deltas : List Delta) (old : FileState)
        → done_op b s (Write call fid version offset len deltas) ≡ Ok after → look fid.0 s.files ≡ Some old → offset + len ≤ max_file
        → (version ≡ old.version) × (look fid.0 after.files ≡ Some (after_write (offset + len) deltas old)) }
    ensures refused { (b : ℕ) (s after : Shelf) (call : ℕ) (fid : Fid) (version offset len : ℕ) (deltas : List Delta)
        → done_op b s (Write call fid version offset len deltas) ≡ Ok after → (look fid.0 s.files ≡ None) ⊎ (max_file < offset + len) → after.files ≡ s.files }
    ensures others { (b : ℕ) (s after : Shelf) (call : ℕ) (fid : Fid) (version offset len : ℕ) (deltas : List Delta) (n : ℕ)
        → done_op b s (Write call fid version offset len deltas) ≡ Ok after → n ≢ fid.0 → look n after.files ≡ look n s.files }
{}

/// A cut that isn't stale changes its file, at the file's version; where the file is gone or would be too long, files
/// are as they were; and other files are.
pub fn cut_leaves_files()
    ensures file { (b : ℕ) (s after : Shelf) (call : ℕ) (fid : Fid) (version size : ℕ) (deltas : List Delta) (old : FileState)
        → done_op b s (Cut call fid version size deltas) ≡ Ok after → look fid.0 s.files ≡ Some old → size ≤ max_file
        → (version ≡ old.version) × (look fid.0 after.files ≡ Some (after_cut b size deltas old)) }
    ensures refused { (b : ℕ) (s after : Shelf) (call : ℕ) (fid : Fid) (version size : ℕ) (deltas : List Delta)
        → done_op b s (Cut call fid version size deltas) ≡ Ok after → (look fid.0 s.files ≡ None) ⊎ (max_file < size) → after.files ≡ s.files }
    ensures others { (b : ℕ) (s after : Shelf) (call : ℕ) (fid : Fid) (version size : ℕ) (deltas : List Delta) (n : ℕ)
        → done_op b s (Cut call fid version size deltas) ≡ Ok after → n ≢ fid.0 → look n after.files ≡ look n s.files }
{}

/// Where the block of a lookup is current for a file, it is current with the new pointers of a write for the file that
/// the write leaves; so it is with those of a cut, without the blocks past the new end; and it is for a file with copies.
pub fn lookups_go_on()
    ensures write { (contents : Contents) (found : List (ℕ × Ptr)) (file : FileState) (end : ℕ) (deltas : List Delta) (k : ℕ)
        → SameBlock contents (look k found) (look k file.blocks)
        → SameBlock contents (look k (set_all deltas found)) (look k (after_write end deltas file).blocks) }
    ensures cut { (b : ℕ) (contents : Contents) (found : List (ℕ × Ptr)) (file : FileState) (size : ℕ) (deltas : List Delta) (k : ℕ)
        → SameBlock contents (look k found) (look k file.blocks)
        → SameBlock contents (look k (set_all deltas (below (blocks_in b size) found))) (look k (after_cut b size deltas file).blocks) }
    ensures clean { (contents : Contents) (found : List (ℕ × Ptr)) (old new : FileState) (k : ℕ)
        → HasCopies contents old new → SameBlock contents (look k found) (look k old.blocks) → SameBlock contents (look k found) (look k new.blocks) }
{}
