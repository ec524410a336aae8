ghost use Rattle.std.specs.Prelude.{◌≡◌, ◌++◌, false, OnOk, IfOk, codes};
ghost use Rattle.zb_claims.specs.Text.{plus_text, call_text, kind_text, words, spelled, node_text, num};

use std::alloc::Global;
use zb_report::{client_into, node_into, quoted_into, server_into, spaced_into};
use zb_types::{ByteList, Call, Event, Job, Kind, Line, Mem, NoMemory, Node, Path};

fn kind_text(kind: Kind) -> &'static [u8]
    ensures { result.now ≡ kind_text kind }
{
    match kind {
        Kind::Idle => b"idle",
        Kind::Call => b"call",
        Kind::Lookup => b"lookup",
        Kind::Fetch => b"fetch",
        Kind::Store => b"store",
        Kind::Mark => b"mark",
        Kind::Commit => b"commit",
        Kind::Pick => b"pick",
        Kind::Retire => b"retire",
        Kind::Sweep => b"sweep",
        Kind::Delete => b"delete",
        Kind::Begin => b"begin",
        Kind::Fence => b"fence",
        Kind::Wipe => b"wipe",
        Kind::Finish => b"finish",
    }
}

// Adds a word with its space, and a path.
fn path_into(out: &mut Vec<u8>, word: &[u8], path: &Path) -> Mem<()>
    ensures { OnOk result (out.new.items ≡ out.old.items ++ (word.now ++ path.now)) }
{
    out.extend_from_slice(word)?;
    Ok(out.extend_from_slice(path.slice())?)
}

// Adds a word with two numbers.
fn numbers_into(alloc: Global, out: &mut Vec<u8>, word: &[u8], first: u32, second: u32) -> Mem<()>
    ensures { OnOk result (out.new.items ≡ out.old.items ++ (word.now ++ num first ++ num second)) }
{
    out.extend_from_slice(word)?;
    spaced_into(alloc, out, u64::from(first))?;
    spaced_into(alloc, out, u64::from(second))
}

fn call_into(alloc: Global, out: &mut Vec<u8>, call: &Call) -> Mem<()>
    ensures { OnOk result (out.new.items ≡ out.old.items ++ call_text call.now) }
{
    match call {
        Call::Create(path) => path_into(out, b"create ", path),
        Call::Mkdir(path) => path_into(out, b"mkdir ", path),
        Call::Remove(path) => path_into(out, b"remove ", path),
        Call::Rename(from, to) => {
            path_into(out, b"rename ", from)?;
            path_into(out, b" ", to)
        }
        Call::Write { fid, offset, bytes } => {
            numbers_into(alloc, out, b"write", fid.0, *offset)?;
            out.push(b' ')?;
            quoted_into(out, bytes.slice())
        }
        Call::Truncate { fid, length } => numbers_into(alloc, out, b"truncate", fid.0, *length),
        Call::Sync => Ok(out.extend_from_slice(b"sync")?),
        Call::Read { fid, offset, len } => {
            numbers_into(alloc, out, b"read", fid.0, *offset)?;
            spaced_into(alloc, out, u64::from(*len))
        }
        Call::List(None) => Ok(out.extend_from_slice(b"list /")?),
        Call::List(Some(path)) => path_into(out, b"list ", path),
        Call::Stat(path) => path_into(out, b"stat ", path),
        Call::Find(path) => path_into(out, b"open ", path),
    }
}

fn event_into(alloc: Global, out: &mut Vec<u8>, event: Event) -> Mem<()>
    ensures { OnOk result (out.new.items ≡ out.old.items ++ words (Line.Event event)) }
{
    match event {
        Event::Crash(node) => {
            out.extend_from_slice(b"crash ")?;
            node_into(alloc, out, node)
        }
        Event::Arm(disk, count) => {
            out.extend_from_slice(b"arm ")?;
            node_into(alloc, out, disk)?;
            spaced_into(alloc, out, count)
        }
        Event::Up(node) => {
            out.extend_from_slice(b"up ")?;
            node_into(alloc, out, node)
        }
        Event::Lose(server) => {
            out.extend_from_slice(b"lose ")?;
            server_into(alloc, out, server)
        }
        Event::Checkpoint => Ok(out.extend_from_slice(b"checkpoint")?),
    }
}

fn job_into(alloc: Global, out: &mut Vec<u8>, job: Job) -> Mem<()>
    ensures { OnOk result (out.new.items ≡ out.old.items ++ words (Line.Job false job)) }
{
    match job {
        Job::Clean => Ok(out.extend_from_slice(b"clean")?),
        Job::Rebuild(server) => {
            out.extend_from_slice(b"rebuild ")?;
            server_into(alloc, out, server)
        }
    }
}

fn plus_into(out: &mut Vec<u8>, plus: bool) -> Mem<()>
    ensures { OnOk result (out.new.items ≡ out.old.items ++ plus_text plus) }
{
    if plus {
        out.push(b'+')?;
    }
    Ok(())
}

// Adds the name of an actor that takes steps.
fn step_into(alloc: Global, out: &mut Vec<u8>, actor: Node) -> Mem<()>
    ensures { OnOk result (out.new.items ≡ out.old.items ++ (codes "step " ++ node_text actor)) }
{
    out.extend_from_slice(b"step ")?;
    node_into(alloc, out, actor)
}

fn line_into(alloc: Global, out: &mut Vec<u8>, line: &Line) -> Mem<()>
    ensures { OnOk result (out.new.items ≡ out.old.items ++ words line.now) }
{
    match line {
        Line::Call { plus, client, call } => {
            plus_into(out, *plus)?;
            client_into(alloc, out, *client)?;
            out.push(b' ')?;
            call_into(alloc, out, call)
        }
        Line::Job { plus, job } => {
            plus_into(out, *plus)?;
            job_into(alloc, out, *job)
        }
        Line::Steps { actor, count } => {
            step_into(alloc, out, *actor)?;
            spaced_into(alloc, out, u64::from(*count))
        }
        Line::StepTo { actor, kind } => {
            step_into(alloc, out, *actor)?;
            out.extend_from_slice(b" to ")?;
            Ok(out.extend_from_slice(kind_text(*kind))?)
        }
        Line::Event(event) => event_into(alloc, out, *event),
    }
}

/// The one spelling of a line of a script, with its line end.
pub fn print(alloc: Global, line: &Line) -> Mem<ByteList>
    ensures { IfOk result (λ text. text ≡ spelled line.now) }
{
    let mut out = Vec::new(alloc);
    line_into(alloc, &mut out, line)?;
    out.push(b'\n')?;
    Ok(ByteList::of(out))
}
