ghost use Rattle.std.specs.Prelude.{◌≡◌, ◌≢◌, ℕ, ◌<◌, List, [], ◌∷◌, ◌++◌, Some, Ok};
ghost use Rattle.zb_types.specs.declared.ids.LogId.{LogId};
ghost use Rattle.zb_types.specs.declared.ids.Ptr.{Ptr};
ghost use Rattle.zb_types.specs.declared.tables.HeldUse.{HeldUse};
ghost use Rattle.zb_types.specs.declared.calls.Call.{Call};
ghost use Rattle.zb_types.specs.Keyed.{changed};
ghost use Rattle.zb_types.specs.Bytes.{resized, written};
ghost use Rattle.zb_delta.specs.declared.delta.Delta.{Delta};
ghost use Rattle.zb_batch.specs.declared.batch.Batch.{Batch};
ghost use Rattle.zb_batch.specs.declared.batch.Op.{Op};
ghost use Rattle.zb_entries.specs.declared.entry.Entry.{Entry};
ghost use Rattle.zb_tables.specs.Tables.{Contents, EachFile, EndsInFile, FileState, PointsIn, SameIn, Tables, first_tables, head_of, shown_bytes, shown_tree};
ghost use Rattle.zb_tables.specs.Fold.{Files, Shelf, after_cut, all_moved, done_ops, folded, retired};
ghost use Rattle.zb_tables.specs.Spelled.{Merged, OpsAre};
ghost use Rattle.zb_tables.specs.Looking.{IsCurrent, MergedFrom};
ghost use Rattle.zb_tables.specs.Pointing.{AllCopies, OpsLie};
ghost use Rattle.zb_tables.specs.Replay.{EntriesIn, IsBatchOf, Replays, held_all, members_after};
ghost use Rattle.zb_tables.specs.Taking.{AreTaken, IsTaken, PointsElsewhere, Sizes};
ghost use Rattle.zb_tables.specs.Shown.{Shows};
ghost use Rattle.zb_tables.specs.Checkpoint.{AreTables};
ghost use Rattle.zb_tables.specs.Finding.{live};
ghost use Rattle.zb_tables.specs.Tail.{tail_contents, tail_file};

/// A batch that is made of updates isn't stale, shows what the updates leave, and has their replies.
pub fn batch_shows_updates()
    ensures { (b : ℕ) (contents : Contents) (ops : List Op) (updates : List Call) (s : Shelf)
        → 0 < b → EachFile (EndsInFile b) s.files → OpsAre b contents ops updates s
        → (after : Shelf) × (done_ops b ops s ≡ Ok after) × EachFile (EndsInFile b) after.files × Shows b contents s updates after }
{}

/// Moving blocks to copies of them leaves what the files show.
pub fn clean_leaves_files()
    ensures { (b : ℕ) (contents : Contents) (deltas : List Delta) (files : Files)
        → EachFile (EndsInFile b) files → AllCopies contents deltas
        → (changed (shown_bytes b contents) (all_moved deltas files) ≡ changed (shown_bytes b contents) files)
        × EachFile (EndsInFile b) (all_moved deltas files) }
{}

/// Moving blocks leaves each file's version and length.
pub fn clean_leaves_heads()
    ensures { (deltas : List Delta) (files : Files) → changed head_of (all_moved deltas files) ≡ changed head_of files }
{}

/// Blocks that were merged from a lookup that is still current are those of the written file.
pub fn current_lookup_merges()
    ensures { (b : ℕ) → 0 < b → (contents : Contents) (file : FileState) → EndsInFile b file
        → (found : List (ℕ × Ptr)) (offset : ℕ) (bytes : List ℕ) (deltas : List Delta)
        → IsCurrent contents found file deltas → MergedFrom b contents found offset bytes deltas
        → Merged b contents (written (shown_bytes b contents file) offset bytes) deltas }
{}

/// Where a block reaches past its file's end, an extension shows its tail in place of zeros.
pub fn tail_shows_again()
    ensures { shown_bytes 64 tail_contents (after_cut 64 2 [] tail_file) ≢ resized (shown_bytes 64 tail_contents tail_file) 2 }
{}

/// What the entries of the journal lead to is one, and what is held after them and the members depend on no bytes.
pub fn replay_is_one()
    ensures tables { (b : ℕ) (contents : Contents) (entries : List Entry) (tables one other : Tables)
        → Replays b contents tables entries one → Replays b contents tables entries other → one ≡ other }
    ensures held { (b : ℕ) (contents : Contents) (entries : List Entry) (tables after : Tables)
        → Replays b contents tables entries after → after.held ≡ held_all tables.next_entry entries tables.held }
    ensures members { (b : ℕ) (contents : Contents) (entries : List Entry) (tables after : Tables)
        → Replays b contents tables entries after → after.members ≡ members_after tables.members entries }
{}

/// Entries and tables read the same wherever the committed bytes of the held stripes are the same.
pub fn committed_bytes_decide()
    ensures replay { (b : ℕ) (held : List HeldUse) (one other : Contents) (entries : List Entry) (tables after : Tables)
        → SameIn held one other → EntriesIn held entries → Replays b one tables entries after → Replays b other tables entries after }
    ensures tree { (b : ℕ) (held : List HeldUse) (one other : Contents) (tables : Tables)
        → SameIn held one other → EachFile (PointsIn held) tables.files → shown_tree b tables one ≡ shown_tree b tables other }
{}

/// Entries that tables can take are replayed, and name stripes that are held behind them; one more is taken behind them.
pub fn taken_entries_are_replayed()
    ensures replayed { (z : Sizes) (contents : Contents) (entries : List Entry) (tables after : Tables)
        → AreTaken z contents [] tables entries after → Replays z.block contents tables entries after × EntriesIn after.held entries }
    ensures more { (z : Sizes) (contents : Contents) (entries : List Entry) (tables mid after : Tables) (entry : Entry) (batch : Batch)
        → AreTaken z contents [] tables entries mid → IsBatchOf contents entry batch → IsTaken z entries mid entry batch
        → folded z.block mid entry batch ≡ Some after → AreTaken z contents [] tables (entries ++ entry ∷ []) after }
{}

/// A batch whose new pointers lie in what is held leaves files whose pointers do; so does a stripe that is given up,
/// where no pointer names it.
pub fn pointers_stay_in_what_is_held()
    ensures batch { (b : ℕ) (held : List HeldUse) (ops : List Op) (s after : Shelf)
        → EachFile (PointsIn held) s.files → OpsLie held ops → done_ops b ops s ≡ Ok after → EachFile (PointsIn held) after.files }
    ensures retire { (held : List HeldUse) (log : LogId) (stripe : ℕ) (files : Files)
        → EachFile (PointsElsewhere log stripe) files → EachFile (PointsIn held) files → EachFile (PointsIn (retired log stripe held)) files }
{}

/// The tables before the first entry are those of a checkpoint.
pub fn first_tables_are_of_a_checkpoint()
    ensures { (z : Sizes) → AreTables z first_tables }
{}

/// No pointer lives in a stripe exactly where each pointer of each file names another.
pub fn nothing_lives_where_all_point_elsewhere()
    ensures none { (t : Tables) (log : LogId) (stripe : ℕ) → live t log stripe ≡ [] → EachFile (PointsElsewhere log stripe) t.files }
    ensures some { (t : Tables) (log : LogId) (stripe : ℕ) → EachFile (PointsElsewhere log stripe) t.files → live t log stripe ≡ [] }
{}
