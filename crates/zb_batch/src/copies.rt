ghost use Rattle.std.specs.Prelude.{◌≡◌, IfOk};

use crate::batch::{Batch, Op, OpList};
use std::alloc::Global;
use zb_types::{Copied, Mem};

impl Op {
    /// The same operation once more.
    pub fn copy(&self, alloc: Global) -> Mem<Op>
        ensures { IfOk result (λ op. op ≡ self.now) }
    {
        Ok(match self {
            Op::Name { call, what } => Op::Name {
                call: *call,
                what: what.copy(alloc)?,
            },
            Op::Write {
                call,
                fid,
                version,
                offset,
                len,
                deltas,
            } => Op::Write {
                call: *call,
                fid: *fid,
                version: *version,
                offset: *offset,
                len: *len,
                deltas: deltas.copy(alloc)?,
            },
            Op::Cut {
                call,
                fid,
                version,
                length,
                deltas,
            } => Op::Cut {
                call: *call,
                fid: *fid,
                version: *version,
                length: *length,
                deltas: deltas.copy(alloc)?,
            },
            Op::Sync { call } => Op::Sync { call: *call },
            Op::Clean { deltas } => Op::Clean {
                deltas: deltas.copy(alloc)?,
            },
        })
    }
}

impl Copied for Op {
    fn copy_all(alloc: Global, items: &[Op]) -> Mem<Vec<Op>> {
        let mut made = Vec::new(alloc);
        for op in items {
            made.push(op.copy(alloc)?)?;
        }
        Ok(made)
    }
}

impl Batch {
    /// The same batch once more.
    pub fn copy(&self, alloc: Global) -> Mem<Batch>
        ensures { IfOk result (λ batch. batch ≡ self.now) }
    {
        Ok(Batch {
            log: self.log,
            number: self.number,
            ops: self.ops.copy(alloc)?,
        })
    }
}
