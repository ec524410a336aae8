ghost use Rattle.zb_given.specs.Batches.{EndsAll, RepliesBatch};

/// The replies of a batch of the first kept calls fit, where they are those of the tree, one after the other, and the
/// history has these updates then; and so do the lines of all kept calls that are unfinished at a finish.
pub fn several_lines_fit()
    ensures replies { RepliesBatch }
    ensures unfinished { EndsAll }
{}
