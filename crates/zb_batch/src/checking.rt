ghost use Rattle.std.specs.Prelude.{◌≡◌, ◌+◌, ◌<◌, ◌≤◌, ◌^◌, ◌↔◌, IsTrue, IfSome, None, sum_by};
ghost use Rattle.std.specs.List.{AllByRecursion};
ghost use Rattle.zb_types.specs.Paths.{is_path};
ghost use Rattle.zb_batch.specs.Batches.{IsNameCall, IsShaped, IsSpellable};
ghost use Rattle.zb_batch.specs.Reading.{IsOwned, op_length};

use crate::batch::{Batch, Op, is_company};
use crate::header::LENGTH;
use crate::lengths::{LENGTH_OF_DELTA, op_len};
use crate::owners::{Owner, owns};
use zb_delta::Delta;
use zb_types::{Call, Path};

// By its type a path is one; that it has bytes shows it.
fn is_path(path: &Path) -> bool
    ensures { result ≡ is_path path.now }
{
    !path.slice().is_empty()
}

fn is_name_call(what: &Call) -> bool
    ensures { IsTrue result ↔ IsNameCall what.now }
{
    match what {
        Call::Create(path) | Call::Mkdir(path) | Call::Remove(path) => is_path(path),
        Call::Rename(from, to) => is_path(from) && is_path(to),
        _ => false,
    }
}

fn owns_all(owner: Owner, deltas: &[Delta]) -> bool
    ensures { IsTrue result ↔ AllByRecursion (IsOwned owner) deltas.now }
{
    deltas.iter().all(|delta| owns(owner, delta))
}

fn is_shaped(op: &Op) -> bool
    ensures { IsTrue result ↔ IsShaped op.now }
{
    match op {
        Op::Name { what, .. } => is_name_call(what),
        Op::Write {
            fid,
            version,
            deltas,
            ..
        } => {
            let owner = Owner::Client {
                fid: *fid,
                version: *version,
            };
            owns_all(owner, deltas.slice())
        }
        Op::Cut {
            fid,
            version,
            deltas,
            ..
        } => {
            let owner = Owner::Client {
                fid: *fid,
                version: *version,
            };
            deltas.len() <= 1 && owns_all(owner, deltas.slice())
        }
        Op::Sync { .. } => true,
        Op::Clean { deltas } => owns_all(Owner::Cleaner, deltas.slice()),
    }
}

fn are_shaped(ops: &[Op]) -> bool
    ensures { IsTrue result ↔ AllByRecursion IsShaped ops.now }
{
    ops.iter().all(is_shaped)
}

// What is left of so many bytes behind an operation, none where it doesn't fit.
fn rest_behind(op: &Op, left: usize) -> Option<usize>
    requires { left < 2 ^ 32 }
    ensures some { IfSome result (λ rest. rest + op_length op.now ≡ left) }
    ensures none { result ≡ None → left < op_length op.now }
{
    if op.deltas().len() > left / LENGTH_OF_DELTA {
        return None;
    }
    left.checked_sub(op_len(op))
}

// Whether the operations take at most so many bytes.
fn fit_in(ops: &[Op], room: usize) -> bool
    requires { room < 2 ^ 32 }
    ensures { IsTrue result ↔ (sum_by op_length ops.now ≤ room) }
{
    let mut left = room;
    for op in ops {
        match rest_behind(op, left) {
            None => return false,
            Some(rest) => left = rest,
        }
    }
    true
}

impl Batch {
    /// Whether it may be written: each operation has deltas of its own kind, file and version, the operations may stand
    /// together, and the length of its meta part has room in four bytes. It goes through its deltas once.
    pub fn is_spellable(&self) -> bool
        ensures { IsTrue result ↔ IsSpellable self.now }
    {
        let ops = self.ops.slice();
        if !are_shaped(ops) {
            return false;
        }
        if !is_company(ops) {
            return false;
        }
        fit_in(ops, u32::MAX as usize - LENGTH)
    }
}
