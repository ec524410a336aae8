ghost use Rattle.std.specs.Prelude.{◌≡◌, ◌++◌, OnOk};
ghost use Rattle.zb_claims.specs.Text.{ended_text, pass_text, mended_text};

use crate::calls::cause_into;
use crate::text::{number_into, server_into, spaced_into};
use std::alloc::Global;
use zb_types::{Ended, Mem, Mended, NoMemory, Pass, ServerId};

fn ended_text(end: Ended) -> &'static [u8]
    ensures { result.now ≡ ended_text end }
{
    match end {
        Ended::Retired => b"retired",
        Ended::Needed => b"needed",
        Ended::Mending => b"mending",
    }
}

/// Adds what a line says of a pass of the cleaner.
pub fn pass_into(alloc: Global, out: &mut Vec<u8>, pass: Pass) -> Mem<()>
    ensures { OnOk result (out.new.items ≡ out.old.items ++ pass_text pass) }
{
    match pass {
        Pass::Nothing => Ok(out.extend_from_slice(b"nothing")?),
        Pass::Done {
            log,
            stripe,
            copied,
            rejected,
            end,
        } => {
            number_into(alloc, out, u64::from(log.0))?;
            spaced_into(alloc, out, stripe)?;
            out.extend_from_slice(b" copied")?;
            spaced_into(alloc, out, copied)?;
            out.extend_from_slice(b" rejected")?;
            spaced_into(alloc, out, rejected)?;
            out.push(b' ')?;
            Ok(out.extend_from_slice(ended_text(end))?)
        }
        Pass::Failed(cause) => {
            out.extend_from_slice(b"failed ")?;
            cause_into(alloc, out, cause)
        }
        Pass::Dropped => Ok(out.extend_from_slice(b"dropped")?),
    }
}

/// Adds what a line says of a rebuild of this server.
pub fn mended_into(alloc: Global, out: &mut Vec<u8>, server: ServerId, end: Mended) -> Mem<()>
    ensures { OnOk result (out.new.items ≡ out.old.items ++ mended_text server end) }
{
    match end {
        Mended::Copied(count) => {
            out.extend_from_slice(b"copied")?;
            spaced_into(alloc, out, count)
        }
        Mended::Another(other) => {
            out.extend_from_slice(b"refused another ")?;
            server_into(alloc, out, other)
        }
        Mended::Failed(cause) => {
            out.extend_from_slice(b"failed ")?;
            cause_into(alloc, out, cause)
        }
        Mended::Server => {
            out.extend_from_slice(b"failed server ")?;
            server_into(alloc, out, server)
        }
        Mended::Dropped => Ok(out.extend_from_slice(b"dropped")?),
    }
}
