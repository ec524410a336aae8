ghost use Rattle.std.specs.Prelude.{IfOk};
ghost use Rattle.zb_claims.specs.Reading.{Reads};
ghost use Rattle.zb_claims.specs.Text.{IsCall, call_text};
ghost use Rattle.zb_script.specs.Calls.{IsPath, path_text, IsCallOf, after_verb};

use crate::limits::MAX_PART;
use crate::numbers::{field, number, up_to};
use crate::spaces::split;
use crate::texts::text;
use crate::verbs::{Verb, read_verb};
use std::alloc::Global;
use zb_types::{Call, Fid, Mem, NoMemory, Path};

fn path(alloc: Global, word: &[u8]) -> Mem<Option<Path>>
    ensures { IfOk result (λ found. Reads IsPath path_text word.now found) }
{
    Path::parse(alloc, word)
}

fn rename(alloc: Global, rest: &[u8]) -> Mem<Option<Call>>
    ensures { IfOk result (λ found. Reads (IsCallOf Verb.Rename) after_verb rest.now found) }
{
    let Some((from, to)) = split(rest) else {
        return Ok(None);
    };
    let Some(from) = path(alloc, from)? else {
        return Ok(None);
    };
    let Some(to) = path(alloc, to)? else {
        return Ok(None);
    };
    Ok(Some(Call::Rename(from, to)))
}

fn write(alloc: Global, rest: &[u8]) -> Mem<Option<Call>>
    ensures { IfOk result (λ found. Reads (IsCallOf Verb.Write) after_verb rest.now found) }
{
    let Some((fid, rest)) = field(rest) else {
        return Ok(None);
    };
    let Some((offset, rest)) = field(rest) else {
        return Ok(None);
    };
    let Some(bytes) = text(alloc, rest)? else {
        return Ok(None);
    };
    Ok(Some(Call::Write {
        fid: Fid(fid),
        offset,
        bytes,
    }))
}

fn truncate(rest: &[u8]) -> Option<Call>
    ensures { Reads (IsCallOf Verb.Truncate) after_verb rest.now result }
{
    let (fid, rest) = field(rest)?;
    let length = number(rest)?;
    Some(Call::Truncate {
        fid: Fid(fid),
        length,
    })
}

fn read(rest: &[u8]) -> Option<Call>
    ensures { Reads (IsCallOf Verb.Read) after_verb rest.now result }
{
    let (fid, rest) = field(rest)?;
    let (offset, rest) = field(rest)?;
    let len = up_to(MAX_PART, rest)?;
    Some(Call::Read {
        fid: Fid(fid),
        offset,
        len,
    })
}

fn list(alloc: Global, rest: &[u8]) -> Mem<Option<Call>>
    ensures { IfOk result (λ found. Reads (IsCallOf Verb.List) after_verb rest.now found) }
{
    if rest == b"/".as_slice() {
        return Ok(Some(Call::List(None)));
    }
    let Some(path) = path(alloc, rest)? else {
        return Ok(None);
    };
    Ok(Some(Call::List(Some(path))))
}

// The call with this keyword that the bytes behind the keyword spell.
fn call_of(alloc: Global, verb: Verb, rest: &[u8]) -> Mem<Option<Call>>
    ensures { IfOk result (λ found. Reads (IsCallOf verb) after_verb rest.now found) }
{
    match verb {
        Verb::Create => Ok(path(alloc, rest)?.map(Call::Create)),
        Verb::Mkdir => Ok(path(alloc, rest)?.map(Call::Mkdir)),
        Verb::Remove => Ok(path(alloc, rest)?.map(Call::Remove)),
        Verb::Rename => rename(alloc, rest),
        Verb::Write => write(alloc, rest),
        Verb::Truncate => Ok(truncate(rest)),
        Verb::Read => Ok(read(rest)),
        Verb::List => list(alloc, rest),
        Verb::Stat => Ok(path(alloc, rest)?.map(Call::Stat)),
        Verb::Open => Ok(path(alloc, rest)?.map(Call::Find)),
    }
}

/// The call that these bytes spell: a keyword, and behind it paths, numbers below 2^32, or bytes between quotes, with one
/// space between words. None exactly where no valid call has this text. Memory for the call's own bytes is taken.
pub fn read_call(alloc: Global, words: &[u8]) -> Mem<Option<Call>>
    ensures { IfOk result (λ found. Reads IsCall call_text words.now found) }
{
    if words == b"sync".as_slice() {
        return Ok(Some(Call::Sync));
    }
    let Some((word, rest)) = split(words) else {
        return Ok(None);
    };
    let Some(verb) = read_verb(word) else {
        return Ok(None);
    };
    call_of(alloc, verb, rest)
}
