// The streams of an outside over files.
ghost use Rattle.std.specs.Prelude.{◌≤◌, ℕ, IfOk, OnOk, OnErr, length, take};
ghost use Rattle.std.specs.Io.KnownBytes.{Appends, ReadConsumes};

use std::io::{ErrorKind, Read, Write};
use zb_types::Failed;

/// Reads once, and again as long as it was interrupted.
pub fn read_some<R: Read>(reader: &mut R, buf: &mut [u8]) -> Result<usize, Failed>
    ensures bound { IfOk result (λ n. n ≤ length buf.new) }
    ensures bytes { ReadConsumes (R.remaining reader.old) (R.remaining reader.new) result buf.new }
{
    'tries: for _ in 0..u64::MAX {
        match reader.read(buf) {
            Ok(n) => return Ok(n),
            Err(error) => {
                if error.kind() != ErrorKind::Interrupted {
                    return Err(Failed);
                }
            }
        }
    }
    Err(Failed)
}

/// Writes all of the bytes and flushes them, or writes as many as the writer takes before it fails.
pub fn print_all<W: Write>(writer: &mut W, bytes: &[u8]) -> Result<(), Failed>
    ensures ok { OnOk result (Appends (W.contents writer.old) (W.contents writer.new) bytes.now) }
    ensures err { OnErr result ((n : ℕ) × Appends (W.contents writer.old) (W.contents writer.new) (take n bytes.now)) }
{
    let mut done = 0;
    'tries: for _ in 0..u64::MAX {
        let (_, rest) = bytes.split_at(done);
        if rest.is_empty() {
            return writer.flush().map_err(|_| Failed);
        }
        match writer.write(rest) {
            Ok(0) => return Err(Failed),
            Ok(n) => done += n,
            Err(error) => {
                if error.kind() != ErrorKind::Interrupted {
                    return Err(Failed);
                }
            }
        }
    }
    Err(Failed)
}
