ghost use Rattle.std.specs.Prelude.{◌≡◌, ◌++◌, ◌∷◌, OnOk};
ghost use Rattle.std.specs.List.{flat_map};
ghost use Rattle.zb_claims.specs.Text.{refusal_text, reply_text, cause_text, said_text, AreNames, IsReply, IsSaidReply};

use crate::text::{quoted_into, server_into, spaced_into};
use std::alloc::Global;
use zb_types::{Cause, Mem, Name, NoMemory, Refusal, Reply, Said};

fn refusal_text(why: Refusal) -> &'static [u8]
    ensures { result.now ≡ refusal_text why }
{
    match why {
        Refusal::NoEntry => b"no entry",
        Refusal::NotDir => b"not a directory",
        Refusal::IsDir => b"is a directory",
        Refusal::Exists => b"exists",
        Refusal::Inside => b"inside",
        Refusal::NotEmpty => b"not empty",
        Refusal::Gone => b"gone",
        Refusal::TooBig => b"too big",
        Refusal::Full => b"full",
    }
}

fn names_into(out: &mut Vec<u8>, names: &[Name]) -> Mem<()>
    ensures text { OnOk result (out.new.items ≡ out.old.items ++ flat_map (λ name. 32 ∷ name) names.now) }
    ensures values { OnOk result (AreNames names.now) }
{
    let mut rest = names;
    while let [name, others @ ..] = rest {
        out.push(b' ')?;
        out.extend_from_slice(name.slice())?;
        rest = others;
    }
    Ok(())
}

fn reply_into(alloc: Global, out: &mut Vec<u8>, reply: &Reply) -> Mem<()>
    ensures text { OnOk result (out.new.items ≡ out.old.items ++ reply_text reply.now) }
    ensures values { OnOk result (IsReply reply.now) }
{
    match reply {
        Reply::Done => Ok(out.extend_from_slice(b"done")?),
        Reply::Made(fid) => {
            out.extend_from_slice(b"fid")?;
            spaced_into(alloc, out, u64::from(fid.0))
        }
        Reply::Bytes(bytes) => {
            out.extend_from_slice(b"bytes ")?;
            quoted_into(out, bytes.slice())
        }
        Reply::Names(names) => {
            out.extend_from_slice(b"names")?;
            names_into(out, names.slice())
        }
        Reply::Dir => Ok(out.extend_from_slice(b"dir")?),
        Reply::File { fid, length } => {
            out.extend_from_slice(b"file")?;
            spaced_into(alloc, out, u64::from(fid.0))?;
            spaced_into(alloc, out, u64::from(*length))
        }
        Reply::Refused(why) => Ok(out.extend_from_slice(refusal_text(*why))?),
    }
}

/// Adds why a call or a job can't go on.
pub fn cause_into(alloc: Global, out: &mut Vec<u8>, cause: Cause) -> Mem<()>
    ensures { OnOk result (out.new.items ≡ out.old.items ++ cause_text cause) }
{
    match cause {
        Cause::Unreachable { a, b } => {
            out.extend_from_slice(b"unreachable ")?;
            server_into(alloc, out, a)?;
            out.push(b' ')?;
            server_into(alloc, out, b)
        }
        Cause::Down => Ok(out.extend_from_slice(b"down")?),
        Cause::NoSpace { server } => {
            out.extend_from_slice(b"no space ")?;
            server_into(alloc, out, server)
        }
    }
}

/// Adds what a line says of a call.
pub fn said_into(alloc: Global, out: &mut Vec<u8>, said: &Said) -> Mem<()>
    ensures text { OnOk result (out.new.items ≡ out.old.items ++ said_text said.now) }
    ensures values { OnOk result (IsSaidReply said.now) }
{
    match said {
        Said::Reply(reply) => reply_into(alloc, out, reply),
        Said::Buffered => Ok(out.extend_from_slice(b"kept buffered")?),
        Said::Kept(cause) => {
            out.extend_from_slice(b"kept ")?;
            cause_into(alloc, out, *cause)
        }
        Said::Failed(cause) => {
            out.extend_from_slice(b"failed ")?;
            cause_into(alloc, out, *cause)
        }
        Said::Dropped => Ok(out.extend_from_slice(b"dropped")?),
        Said::Unfinished(cause) => {
            out.extend_from_slice(b"unfinished ")?;
            cause_into(alloc, out, *cause)
        }
    }
}
