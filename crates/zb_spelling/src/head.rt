ghost use Rattle.std.specs.Prelude.{◌≡◌, ◌+◌, ◌≤◌, ◌++◌, length, IfSome, OnOk};
ghost use Rattle.std.specs.Option.{option_map};
ghost use Rattle.zb_numbers.specs.Fronts.{ReadsFront};
ghost use Rattle.zb_spelling.specs.Spelling.{head_text, state_text};
ghost use Rattle.zb_spelling.specs.Reading.{IsAny, IsHead, text_of_head};

use crate::parts::Numbers;
use std::alloc::Global;
use zb_numbers::{append, are_zeros, push_u32, push_u64, split_u32, split_u64};
use zb_types::{ByteList, Mem, Members, NoMemory, ServerId, State};

/// How many bytes stand before the lists.
const LENGTH: usize = 28;

/// What stands before the lists.
#[derive(Clone, Copy)]
pub(crate) struct Head {
    pub(crate) next_file: u32,
    pub(crate) numbers: Numbers,
}

fn read_state(bytes: &[u8]) -> Option<(State, &[u8])>
    ensures front { ReadsFront IsAny state_text bytes.now (option_map (λ found. (found.0, found.1.now)) result) }
    ensures length { IfSome result (λ found. length found.1.now + 2 ≡ length bytes.now) }
{
    let [kind, server, rest @ ..] = bytes else {
        return None;
    };
    match *kind {
        0 if *server == 0 => Some((State::Whole, rest)),
        1 => Some((State::Out(ServerId(*server)), rest)),
        2 => Some((State::Mending(ServerId(*server)), rest)),
        _ => None,
    }
}

/// The head at the front of these bytes.
pub(crate) fn read_head(bytes: &[u8]) -> Option<(Head, &[u8])>
    ensures { ReadsFront IsHead text_of_head bytes.now (option_map (λ found. (found.0, found.1.now)) result) }
{
    if bytes.len() < LENGTH {
        return None;
    }
    let (next_file, rest) = split_u32(bytes);
    let (next_log, rest) = split_u32(rest);
    let (state, rest) = read_state(rest)?;
    let (zeros, rest) = rest.split_at(2);
    if !are_zeros(zeros) {
        return None;
    }
    let (generation, rest) = split_u64(rest);
    let (next_entry, rest) = split_u64(rest);
    let numbers = Numbers {
        members: Members { state, generation },
        next_log,
        next_entry,
    };
    Some((Head { next_file, numbers }, rest))
}

fn state_bytes(state: State) -> [u8; 2]
    ensures { result ≡ state_text state }
{
    match state {
        State::Whole => [0, 0],
        State::Out(server) => [1, server.0],
        State::Mending(server) => [2, server.0],
    }
}

/// Writes a head, or a part of it where memory runs out.
pub(crate) fn push_head(
    alloc: Global,
    to: &mut ByteList,
    next_file: u32,
    numbers: &Numbers,
) -> Mem<()>
    ensures { OnOk result (to.new ≡ to.old ++ head_text next_file numbers.now.next_log numbers.now.members numbers.now.next_entry) }
{
    push_u32(alloc, to, next_file)?;
    push_u32(alloc, to, numbers.next_log)?;
    append(alloc, to, &state_bytes(numbers.members.state))?;
    append(alloc, to, &[0; 2])?;
    push_u64(alloc, to, numbers.members.generation)?;
    push_u64(alloc, to, numbers.next_entry)
}
