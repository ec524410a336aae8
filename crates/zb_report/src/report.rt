ghost use Rattle.std.specs.Prelude.{◌≡◌, ◌++◌, OnOk, IfOk};
ghost use Rattle.zb_claims.specs.Text.{outcome_text, HasReply, line_text, listed_text, list_text};

use crate::calls::said_into;
use crate::events::{answer_into, told_into};
use crate::jobs::{mended_into, pass_into};
use crate::text::{client_into, server_into, spaced_into};
use std::alloc::Global;
use zb_types::{ByteList, Listed, Mem, NoMemory, Outcome, TreeEntry, TreeList};

fn outcome_into(alloc: Global, out: &mut Vec<u8>, line: &Outcome) -> Mem<()>
    ensures text { OnOk result (out.new.items ≡ out.old.items ++ outcome_text line.now) }
    ensures values { OnOk result (HasReply line.now) }
{
    match line {
        Outcome::Call {
            client,
            number,
            said,
        } => {
            client_into(alloc, out, *client)?;
            spaced_into(alloc, out, *number)?;
            out.push(b' ')?;
            said_into(alloc, out, said)
        }
        Outcome::Clean(pass) => {
            out.extend_from_slice(b"clean ")?;
            pass_into(alloc, out, *pass)
        }
        Outcome::Rebuild { server, end } => {
            out.extend_from_slice(b"rebuild ")?;
            server_into(alloc, out, *server)?;
            out.push(b' ')?;
            mended_into(alloc, out, *server, *end)
        }
        Outcome::Event { event, answer } => {
            told_into(alloc, out, *event)?;
            out.push(b' ')?;
            answer_into(alloc, out, *answer)
        }
    }
}

/// The text of a line of the report, with its line end.
///
/// A reply that has a text is one that a report may tell: its bytes, names and numbers are within their limits.
pub fn outcome(alloc: Global, line: &Outcome) -> Mem<ByteList>
    ensures text { IfOk result (λ text. text ≡ line_text line.now) }
    ensures values { OnOk result (HasReply line.now) }
{
    let mut out = Vec::new(alloc);
    outcome_into(alloc, &mut out, line)?;
    out.push(b'\n')?;
    Ok(ByteList::of(out))
}

fn entry_into(alloc: Global, out: &mut Vec<u8>, entry: &TreeEntry) -> Mem<()>
    ensures { OnOk result (out.new.items ≡ out.old.items ++ listed_text entry.now.path entry.now.listed) }
{
    match entry.listed {
        Listed::Dir => {
            out.extend_from_slice(b"dir ")?;
            out.extend_from_slice(entry.path.slice())?;
        }
        Listed::File { fid, length } => {
            out.extend_from_slice(b"file ")?;
            out.extend_from_slice(entry.path.slice())?;
            spaced_into(alloc, out, u64::from(fid.0))?;
            spaced_into(alloc, out, u64::from(length))?;
        }
    }
    Ok(out.push(b'\n')?)
}

/// The text of the tree: a line for each path, in their order.
pub fn tree(alloc: Global, tree: &TreeList) -> Mem<ByteList>
    ensures { IfOk result (λ text. text ≡ list_text tree.now) }
{
    let mut out = Vec::new(alloc);
    let mut rest = tree.slice();
    while let [entry, others @ ..] = rest {
        entry_into(alloc, &mut out, entry)?;
        rest = others;
    }
    Ok(ByteList::of(out))
}
