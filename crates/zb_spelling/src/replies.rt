ghost use Rattle.std.specs.Prelude.{◌≡◌, OnOk};
ghost use Rattle.std.specs.Option.{option_map};
ghost use Rattle.zb_types.specs.declared.calls.Reply.{Reply as PlainReply};
ghost use Rattle.zb_tables.specs.Checkpoint.{IsUpdateReply};
ghost use Rattle.zb_spelling.specs.Spelling.{kind_of_refusal, kind_of_reply, number_of_reply, reply_text};
ghost use Rattle.zb_spelling.specs.Reading.{IsRefusalOf, IsReplyOf};

use crate::listed::{Readable, Written};
use crate::names::{TAGGED, split_tagged};
use std::alloc::Global;
use zb_numbers::push_u32;
use zb_types::{ByteList, Fid, Mem, NoMemory, Refusal, Reply};

// The refusal of this kind.
fn refusal_of(kind: u8) -> Option<Refusal>
    ensures { IsRefusalOf kind result }
{
    match kind {
        2 => Some(Refusal::NoEntry),
        3 => Some(Refusal::NotDir),
        4 => Some(Refusal::IsDir),
        5 => Some(Refusal::Exists),
        6 => Some(Refusal::Inside),
        7 => Some(Refusal::NotEmpty),
        8 => Some(Refusal::Gone),
        9 => Some(Refusal::TooBig),
        10 => Some(Refusal::Full),
        _ => None,
    }
}

// The reply to an update of this kind with this number.
fn reply_of(kind: u8, number: u32) -> Option<Reply>
    ensures { IsReplyOf kind number result }
{
    if kind == 1 {
        return Some(Reply::Made(Fid(number)));
    }
    if number != 0 {
        return None;
    }
    if kind == 0 {
        return Some(Reply::Done);
    }
    let why = refusal_of(kind)?;
    Some(Reply::Refused(why))
}

fn kind_of_refusal(why: Refusal) -> u8
    ensures { result ≡ kind_of_refusal why }
{
    match why {
        Refusal::NoEntry => 2,
        Refusal::NotDir => 3,
        Refusal::IsDir => 4,
        Refusal::Exists => 5,
        Refusal::Inside => 6,
        Refusal::NotEmpty => 7,
        Refusal::Gone => 8,
        Refusal::TooBig => 9,
        Refusal::Full => 10,
    }
}

// The kind of a reply, and its number.
fn parts_of(reply: &Reply) -> (u8, u32)
    ensures kind { result.0 ≡ kind_of_reply reply.now }
    ensures number { result.1 ≡ number_of_reply reply.now }
{
    match reply {
        Reply::Made(fid) => (1, fid.0),
        Reply::Refused(why) => (kind_of_refusal(*why), 0),
        Reply::Done | Reply::Bytes(_) | Reply::Names(_) | Reply::Dir | Reply::File { .. } => (0, 0),
    }
}

impl Written for Reply {
    ghost text = { reply_text };

    fn push(&self, alloc: Global, to: &mut ByteList) -> Mem<()> {
        let (kind, number) = parts_of(self);
        to.push(kind)?;
        push_u32(alloc, to, number)
    }
}

impl Readable for Reply {
    ghost Plain = { PlainReply };

    ghost plain = { λ reply. reply };

    ghost Is = { IsUpdateReply };

    ghost text = { reply_text };

    fn read(_alloc: Global, bytes: &[u8]) -> Mem<Option<(Reply, &[u8])>> {
        if bytes.len() < TAGGED {
            return Ok(None);
        }
        let (kind, number, rest) = split_tagged(bytes);
        match reply_of(kind, number) {
            Some(reply) => Ok(Some((reply, rest))),
            None => Ok(None),
        }
    }
}
