ghost use Rattle.std.specs.Prelude.{◌≡◌, ◌+◌, length, sum_by};
ghost use Rattle.zb_numbers.specs.Fronts.{IsPrefixFree};
ghost use Rattle.zb_batch.specs.declared.batch.Batch.{Batch};
ghost use Rattle.zb_batch.specs.Spelling.{meta_length, spelling_of_batch};
ghost use Rattle.zb_batch.specs.Batches.{IsBatch};
ghost use Rattle.zb_batch.specs.Reading.{op_length};
ghost use Rattle.zb_batch.specs.Shapes.{HaveSameShape};

/// Each batch has one spelling, and no spelling of a batch is a front of another's.
pub fn batches_are_prefix_free()
    ensures { IsPrefixFree IsBatch spelling_of_batch }
{}

/// A batch's spelling is as long as `meta_len` says, whatever its pointers are: of the deltas only their count
/// is in the length.
pub fn batches_have_their_length()
    ensures spelled { (batch : Batch) → length (spelling_of_batch batch) ≡ meta_length batch }

    // It is known before the deltas have their pointers.
    ensures ops { (batch : Batch) → meta_length batch ≡ 32 + sum_by op_length batch.ops }
    ensures shape { (batch other : Batch) → HaveSameShape batch other → meta_length batch ≡ meta_length other }
{}
