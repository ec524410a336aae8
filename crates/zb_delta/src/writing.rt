ghost use Rattle.std.specs.Prelude.{◌≡◌, ◌++◌, OnOk};
ghost use Rattle.zb_delta.specs.Spelling.{IsPtr, IsOld, IsBody, IsDelta, kind_of, body_of, ptr_text, old_text, body_text, spelling_of_delta};

use crate::delta::{Body, Delta};
use std::alloc::Global;
use zb_numbers::{append, push_u32, push_u64};
use zb_types::{ByteList, Mem, NoMemory, Ptr};

fn push_ptr(alloc: Global, to: &mut ByteList, ptr: &Ptr) -> Mem<()>
    ensures text { OnOk result (to.new ≡ to.old ++ ptr_text ptr.now) }
    ensures room { OnOk result (IsPtr ptr.now) }
{
    push_u32(alloc, to, ptr.log.0)?;
    push_u64(alloc, to, ptr.stripe)?;
    push_u32(alloc, to, ptr.offset)?;
    push_u32(alloc, to, ptr.len)
}

// Writes 1 and the pointer, or zeros in their place.
fn push_old(alloc: Global, to: &mut ByteList, old: &Option<Ptr>) -> Mem<()>
    ensures text { OnOk result (to.new ≡ to.old ++ old_text old.now) }
    ensures room { OnOk result (IsOld old.now) }
{
    match old {
        None => append(alloc, to, &[0; 21]),
        Some(ptr) => {
            to.push(1)?;
            push_ptr(alloc, to, ptr)
        }
    }
}

fn push_body(alloc: Global, to: &mut ByteList, body: &Body) -> Mem<()>
    ensures text { OnOk result (to.new ≡ to.old ++ body_text body.entry.now) }
    ensures room { OnOk result (IsBody body.entry.now) }
{
    push_u32(alloc, to, body.fid.0)?;
    push_u64(alloc, to, body.version)?;
    push_u32(alloc, to, body.block)?;
    push_old(alloc, to, &body.was)?;
    push_ptr(alloc, to, &body.now)
}

// The number of its kind, and the body that stands behind it.
fn parts_of(delta: &Delta) -> (u8, Body)
    ensures kind { result.0 ≡ kind_of delta.now }
    ensures body { result.1 ≡ body_of delta.now }
{
    match delta {
        Delta::Update(body) => (1, *body),
        Delta::Clean(body) => (2, *body),
        Delta::Reject { body, table } => (
            3,
            Body {
                was: *table,
                ..*body
            },
        ),
    }
}

/// Writes a delta at the end, or a part of it where memory runs out.
pub(crate) fn push_delta(alloc: Global, to: &mut ByteList, delta: &Delta) -> Mem<()>
    ensures text { OnOk result (to.new ≡ to.old ++ spelling_of_delta delta.now) }
    ensures room { OnOk result (IsDelta delta.now) }
{
    let (kind, body) = parts_of(delta);
    to.push(kind)?;
    push_body(alloc, to, &body)
}
