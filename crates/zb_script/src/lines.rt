ghost use Rattle.std.specs.Prelude.{◌≡◌, ◌++◌, false, IfOk};
ghost use Rattle.zb_claims.specs.Reading.{Reads};
ghost use Rattle.zb_claims.specs.Text.{plus_text, words as words_of_line, IsLine};
ghost use Rattle.zb_script.specs.Lines.{begins_with_plus, body_text, IsLineWith, IsLineOf, IsLone, IsStepOf, after_head, after_actor};

use crate::calls::read_call;
use crate::head::{Head, read_head};
use crate::kinds::read_kind;
use crate::limits::MAX_STEP;
use crate::nodes::{has_client, read_actor, read_disk, read_member, read_server};
use crate::numbers::up_to;
use crate::spaces::{behind, split};
use std::alloc::Global;
use zb_types::{Event, Geometry, Job, Line, Mem, NoMemory, Node};

// Whether a plus stands first, and what stands behind it.
fn split_plus(words: &[u8]) -> (bool, &[u8])
    ensures whole { plus_text result.0 ++ result.1.now ≡ words.now }
    ensures first { result.0 ≡ begins_with_plus words.now }
{
    let [first, body @ ..] = words else {
        return (false, words);
    };
    if *first == b'+' {
        (true, body)
    } else {
        (false, words)
    }
}

fn call_line(
    alloc: Global,
    geo: &Geometry,
    plus: bool,
    client: u8,
    rest: &[u8],
) -> Mem<Option<Line>>
    ensures { IfOk result (λ found. Reads (IsLineOf geo.now plus (Head.Client client)) after_head rest.now found) }
{
    if !has_client(geo, client) {
        return Ok(None);
    }
    let Some(call) = read_call(alloc, rest)? else {
        return Ok(None);
    };
    Ok(Some(Line::Call { plus, client, call }))
}

fn rebuild_line(geo: &Geometry, plus: bool, rest: &[u8]) -> Option<Line>
    ensures { Reads (IsLineOf geo.now plus Head.Rebuild) after_head rest.now result }
{
    let server = read_server(geo, rest)?;
    Some(Line::Job {
        plus,
        job: Job::Rebuild(server),
    })
}

// What a node does, by what stands behind its name.
fn steps_of(actor: Node, what: &[u8]) -> Option<Line>
    ensures { Reads (IsStepOf actor) after_actor what.now result }
{
    if let Some(kind) = behind(b"to ", what) {
        let kind = read_kind(kind)?;
        return Some(Line::StepTo { actor, kind });
    }
    let count = up_to(MAX_STEP, what)?;
    Some(Line::Steps { actor, count })
}

fn step_line(geo: &Geometry, rest: &[u8]) -> Option<Line>
    ensures { Reads (IsLineOf geo.now false Head.Step) after_head rest.now result }
{
    let (name, what) = split(rest)?;
    let actor = read_actor(geo, name)?;
    steps_of(actor, what)
}

fn crash_line(geo: &Geometry, rest: &[u8]) -> Option<Line>
    ensures { Reads (IsLineOf geo.now false Head.Crash) after_head rest.now result }
{
    let node = read_member(geo, rest)?;
    Some(Line::Event(Event::Crash(node)))
}

fn arm_line(geo: &Geometry, rest: &[u8]) -> Option<Line>
    ensures { Reads (IsLineOf geo.now false Head.Arm) after_head rest.now result }
{
    let (name, count) = split(rest)?;
    let disk = read_disk(geo, name)?;
    let count = up_to(MAX_STEP, count)?;
    Some(Line::Event(Event::Arm(disk, u64::from(count))))
}

fn up_line(geo: &Geometry, rest: &[u8]) -> Option<Line>
    ensures { Reads (IsLineOf geo.now false Head.Up) after_head rest.now result }
{
    let node = read_member(geo, rest)?;
    Some(Line::Event(Event::Up(node)))
}

fn lose_line(geo: &Geometry, rest: &[u8]) -> Option<Line>
    ensures { Reads (IsLineOf geo.now false Head.Lose) after_head rest.now result }
{
    let server = read_server(geo, rest)?;
    Some(Line::Event(Event::Lose(server)))
}

// The line with this plus and this first word that the bytes behind the word spell.
fn line_of(alloc: Global, geo: &Geometry, plus: bool, head: Head, rest: &[u8]) -> Mem<Option<Line>>
    ensures { IfOk result (λ found. Reads (IsLineOf geo.now plus head) after_head rest.now found) }
{
    match head {
        Head::Client(client) => call_line(alloc, geo, plus, client, rest),
        Head::Rebuild => Ok(rebuild_line(geo, plus, rest)),
        Head::Step | Head::Crash | Head::Arm | Head::Up | Head::Lose if plus => Ok(None),
        Head::Step => Ok(step_line(geo, rest)),
        Head::Crash => Ok(crash_line(geo, rest)),
        Head::Arm => Ok(arm_line(geo, rest)),
        Head::Up => Ok(up_line(geo, rest)),
        Head::Lose => Ok(lose_line(geo, rest)),
    }
}

// The line of one word with this plus.
fn lone_line(plus: bool, word: &[u8]) -> Option<Line>
    ensures { Reads (IsLone plus) body_text word.now result }
{
    if word == b"clean".as_slice() {
        return Some(Line::Job {
            plus,
            job: Job::Clean,
        });
    }
    if word == b"checkpoint".as_slice() && !plus {
        return Some(Line::Event(Event::Checkpoint));
    }
    None
}

// The line behind its plus.
fn body(alloc: Global, geo: &Geometry, plus: bool, bytes: &[u8]) -> Mem<Option<Line>>
    ensures { IfOk result (λ found. Reads (IsLineWith geo.now plus) body_text bytes.now found) }
{
    let Some((word, rest)) = split(bytes) else {
        return Ok(lone_line(plus, bytes));
    };
    let Some(head) = read_head(word) else {
        return Ok(None);
    };
    line_of(alloc, geo, plus, head, rest)
}

/// The line that these bytes spell, without its line end, where its nodes are those of the system. None exactly where no
/// valid line has this text. Memory for the bytes of the line's call is taken.
pub fn read_line(alloc: Global, geo: &Geometry, words: &[u8]) -> Mem<Option<Line>>
    ensures { IfOk result (λ found. Reads (IsLine geo.now) words_of_line words.now found) }
{
    let (plus, rest) = split_plus(words);
    body(alloc, geo, plus, rest)
}
