ghost use Rattle.std.specs.Prelude.{◌≡◌, ◌+◌, ◌<◌, ◌≤◌, ◌^◌, length, sum_by};
ghost use Rattle.zb_batch.specs.Spelling.{deltas_of, delta_count};
ghost use Rattle.zb_batch.specs.Reading.{paths_length, op_length};

use crate::batch::Op;
use zb_delta::Delta;
use zb_types::{Call, Path};

/// How many bytes a delta takes.
pub(crate) const LENGTH_OF_DELTA: usize = 58;

fn path_len(path: &Path) -> usize
    ensures length { result ≡ 2 + length path.now }
    ensures short { result ≤ 1026 }
{
    2 + path.slice().len()
}

fn paths_len(what: &Call) -> usize
    ensures length { result ≡ paths_length what.now }
    ensures short { result ≤ 2052 }
{
    match what {
        Call::Create(path) | Call::Mkdir(path) | Call::Remove(path) => path_len(path),
        Call::Rename(from, to) => path_len(from) + path_len(to),
        _ => 0,
    }
}

impl Op {
    /// Its deltas, in order; none of a name operation or a sync.
    pub fn deltas(&self) -> &[Delta]
        ensures { result.now ≡ deltas_of self.now }
    {
        match self {
            Op::Write { deltas, .. } | Op::Cut { deltas, .. } | Op::Clean { deltas } => {
                deltas.slice()
            }
            Op::Name { .. } | Op::Sync { .. } => &[],
        }
    }
}

/// How many bytes an operation takes.
pub(crate) fn op_len(op: &Op) -> usize
    requires { length (deltas_of op.now) < 2 ^ 32 }
    ensures { result ≡ op_length op.now }
{
    9 + match op {
        Op::Name { what, .. } => paths_len(what),
        Op::Write { deltas, .. } => 24 + LENGTH_OF_DELTA * deltas.len(),
        Op::Cut { deltas, .. } => 20 + LENGTH_OF_DELTA * deltas.len(),
        Op::Sync { .. } => 0,
        Op::Clean { deltas } => 4 + LENGTH_OF_DELTA * deltas.len(),
    }
}

/// How many bytes the operations take.
pub(crate) fn ops_len(ops: &[Op]) -> usize
    requires { sum_by op_length ops.now < 2 ^ 32 }
    ensures { result ≡ sum_by op_length ops.now }
{
    let mut len = 0;
    for op in ops {
        len += op_len(op);
    }
    len
}

/// How many deltas the operations have together.
pub(crate) fn count_deltas(ops: &[Op]) -> usize
    requires { delta_count ops.now < 2 ^ 32 }
    ensures { result ≡ delta_count ops.now }
{
    let mut count = 0;
    for op in ops {
        count += op.deltas().len();
    }
    count
}
