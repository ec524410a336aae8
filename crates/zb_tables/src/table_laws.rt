ghost use Rattle.std.specs.Prelude.{◌≡◌, ◌<◌, ◌≤◌, List, [], length, Some};
ghost use Rattle.zb_types.specs.Names.{max_names};
ghost use Rattle.zb_batch.specs.declared.batch.Batch.{Batch};
ghost use Rattle.zb_entries.specs.declared.entry.Entry.{Entry};
ghost use Rattle.zb_tables.specs.Tables.{Contents, Tables};
ghost use Rattle.zb_tables.specs.Fold.{folded};
ghost use Rattle.zb_tables.specs.Replay.{IsBatchOf};
ghost use Rattle.zb_tables.specs.Taking.{AreTaken, IsTaken, Sizes};
ghost use Rattle.zb_tables.specs.Checkpoint.{AreTables};

/// Tables that a checkpoint may have are left as such ones by each entry that they can take, and so by all entries that
/// are taken one behind the other.
pub fn entries_leave_tables()
    ensures each { (z : Sizes) (contents : Contents) (before : List Entry) (t after : Tables) (entry : Entry) (batch : Batch)
        → AreTables z t → IsBatchOf contents entry batch → IsTaken z before t entry batch → folded z.block t entry batch ≡ Some after
        → AreTables z after }
    ensures all { (z : Sizes) (contents : Contents) (entries : List Entry) (t after : Tables)
        → AreTables z t → AreTaken z contents [] t entries after → AreTables z after }
{}

/// Tables that a checkpoint may have have at most 4,096 files, and fewer logs than the number of the next one, so that these
/// counts have four bytes.
pub fn tables_have_few()
    ensures files { (z : Sizes) (t : Tables) → AreTables z t → length t.files ≤ max_names }
    ensures logs { (z : Sizes) (t : Tables) → AreTables z t → length t.logs < t.next_log }
{}
