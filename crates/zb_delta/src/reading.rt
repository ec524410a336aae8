ghost use Rattle.std.specs.Prelude.{◌≡◌, ◌+◌, ◌≤◌, ◌++◌, length, IfSome};
ghost use Rattle.std.specs.Option.{option_map};
ghost use Rattle.zb_numbers.specs.Fronts.{ReadsFront};
ghost use Rattle.zb_delta.specs.Spelling.{IsOld, IsBody, IsOfKind, IsRead, ptr_text, old_text, body_text, body_of, spelling_of_delta};

use crate::delta::{Body, Delta, LENGTH};
use zb_numbers::{are_zeros, split_u32, split_u64};
use zb_types::{Fid, LogId, Ptr};

fn read_ptr(bytes: &[u8]) -> (Ptr, &[u8])
    requires { 20 ≤ length bytes.now }
    ensures whole { ptr_text result.0 ++ result.1.now ≡ bytes.now }
    ensures length { length result.1.now + 20 ≡ length bytes.now }
{
    let (log, rest) = split_u32(bytes);
    let (stripe, rest) = split_u64(rest);
    let (offset, rest) = split_u32(rest);
    let (len, rest) = split_u32(rest);
    let ptr = Ptr {
        log: LogId(log),
        stripe,
        offset,
        len,
    };
    (ptr, rest)
}

fn read_old(bytes: &[u8]) -> Option<(Option<Ptr>, &[u8])>
    requires { 21 ≤ length bytes.now }
    ensures front { ReadsFront IsOld old_text bytes.now (option_map (λ found. (found.0, found.1.now)) result) }
    ensures length { IfSome result (λ found. length found.1.now + 21 ≡ length bytes.now) }
{
    let [flag, rest @ ..] = bytes else {
        return None;
    };
    if *flag == 0 {
        let (zeros, rest) = rest.split_at(20);
        if !are_zeros(zeros) {
            return None;
        }
        return Some((None, rest));
    }
    if *flag == 1 {
        let (ptr, rest) = read_ptr(rest);
        return Some((Some(ptr), rest));
    }
    None
}

fn read_body(bytes: &[u8]) -> Option<(Body, &[u8])>
    requires { 57 ≤ length bytes.now }
    ensures { ReadsFront IsBody body_text bytes.now (option_map (λ found. (found.0, found.1.now)) result) }
{
    let (fid, rest) = split_u32(bytes);
    let (version, rest) = split_u64(rest);
    let (block, rest) = split_u32(rest);
    let (was, rest) = read_old(rest)?;
    let (now, rest) = read_ptr(rest);
    let body = Body {
        fid: Fid(fid),
        version,
        block,
        was,
        now,
    };
    Some((body, rest))
}

// The delta of this kind with this body.
fn delta_of(kind: u8, body: Body) -> Option<Delta>
    ensures { IsOfKind kind body result }
{
    match kind {
        1 => Some(Delta::Update(body)),
        2 => Some(Delta::Clean(body)),
        3 => Some(Delta::Reject {
            body: Body { was: None, ..body },
            table: body.was,
        }),
        _ => None,
    }
}

/// The delta at the front of these bytes, and what stands behind it.
pub(crate) fn read_delta(bytes: &[u8]) -> Option<(Delta, &[u8])>
    ensures { ReadsFront IsRead spelling_of_delta bytes.now (option_map (λ found. (found.0, found.1.now)) result) }
{
    if bytes.len() < LENGTH {
        return None;
    }
    let [kind, rest @ ..] = bytes else {
        return None;
    };
    let (body, rest) = read_body(rest)?;
    let delta = delta_of(*kind, body)?;
    Some((delta, rest))
}
