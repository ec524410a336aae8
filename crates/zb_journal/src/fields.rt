ghost use Rattle.std.specs.Prelude.{◌≡◌, ◌≤◌, ◌<◌, ℕ, [], length};
ghost use Rattle.zb_journal.specs.Spelling.{pieces_of, fields_of, state_number, server_in, IsNamed};
ghost use Rattle.zb_journal.specs.Reading.{IsEntryOf};

use zb_entries::Entry;
use zb_types::{LogId, Members, Piece, PieceList, ServerId, State};

// The numbers of an entry.
#[derive(Clone, Copy)]
pub(crate) struct Fields {
    pub(crate) kind: u8,
    // of pieces
    pub(crate) count: u16,
    // a log, or a server
    pub(crate) who: u32,
    // an owner, a batch, a state or a stripe
    pub(crate) what: u64,
    pub(crate) generation: u64,
}

/// The pieces of an entry: only a commit has any.
pub(crate) fn pieces(entry: &Entry) -> &[Piece]
    ensures { result.now ≡ pieces_of entry.now }
{
    match entry {
        Entry::Commit { pieces, .. } => pieces.slice(),
        _ => &[],
    }
}

// The number of a state, and of the server that it names, 0 where it names none.
fn numbers_of(state: State) -> (u64, u32)
    ensures what { result.0 ≡ state_number state }
    ensures who { result.1 ≡ server_in state }
    ensures named { server_in state < 256 }
{
    match state {
        State::Whole => (0, 0),
        State::Out(server) => (1, u32::from(server.0)),
        State::Mending(server) => (2, u32::from(server.0)),
    }
}

/// The numbers of an entry.
pub(crate) fn fields_in(entry: &Entry) -> Fields
    requires { length (pieces_of entry.now) ≤ 65535 }
    ensures fields { result ≡ fields_of entry.now }
    ensures named { IsNamed entry.now }
{
    match entry {
        Entry::Attach { owner, log } => Fields {
            kind: 1,
            count: 0,
            who: log.0,
            what: u64::from(*owner),
            generation: 0,
        },
        Entry::Commit {
            log,
            batch,
            generation,
            pieces,
        } => Fields {
            kind: 2,
            count: pieces.len() as u16,
            who: log.0,
            what: *batch,
            generation: *generation,
        },
        Entry::Mark { members } => {
            let (what, who) = numbers_of(members.state);
            Fields {
                kind: 3,
                count: 0,
                who,
                what,
                generation: members.generation,
            }
        }
        Entry::Retire { log, stripe } => Fields {
            kind: 4,
            count: 0,
            who: log.0,
            what: *stripe,
            generation: 0,
        },
    }
}

fn attach_of(fields: &Fields) -> Option<Entry>
    requires kind { fields.now.kind ≡ 1 }
    requires count { fields.now.count ≡ 0 }
    ensures { IsEntryOf fields.now [] result }
{
    if fields.what > 255 || fields.generation != 0 {
        return None;
    }
    Some(Entry::Attach {
        owner: fields.what as u8,
        log: LogId(fields.who),
    })
}

fn mark_of(fields: &Fields) -> Option<Entry>
    requires kind { fields.now.kind ≡ 3 }
    requires count { fields.now.count ≡ 0 }
    ensures { IsEntryOf fields.now [] result }
{
    if fields.who > 255 || fields.what > 2 {
        return None;
    }
    if fields.what == 0 && fields.who != 0 {
        return None;
    }
    let server = ServerId(fields.who as u8);
    let state = if fields.what == 0 {
        State::Whole
    } else if fields.what == 1 {
        State::Out(server)
    } else {
        State::Mending(server)
    };
    Some(Entry::Mark {
        members: Members {
            state,
            generation: fields.generation,
        },
    })
}

fn retire_of(fields: &Fields) -> Option<Entry>
    requires kind { fields.now.kind ≡ 4 }
    requires count { fields.now.count ≡ 0 }
    ensures { IsEntryOf fields.now [] result }
{
    if fields.generation != 0 {
        return None;
    }
    Some(Entry::Retire {
        log: LogId(fields.who),
        stripe: fields.what,
    })
}

// The entry with these numbers, which has no pieces.
fn plain_of(fields: &Fields) -> Option<Entry>
    requires kind { fields.now.kind ≡ 2 → ⊥ }
    requires count { fields.now.count ≡ 0 }
    ensures { IsEntryOf fields.now [] result }
{
    if fields.kind == 1 {
        return attach_of(fields);
    }
    if fields.kind == 3 {
        return mark_of(fields);
    }
    if fields.kind == 4 {
        return retire_of(fields);
    }
    None
}

/// The entry with these numbers and pieces.
pub(crate) fn entry_of(fields: &Fields, pieces: PieceList) -> Option<Entry>
    requires { length pieces ≡ fields.now.count }
    ensures { IsEntryOf fields.now pieces result }
{
    if fields.kind == 2 {
        return Some(Entry::Commit {
            log: LogId(fields.who),
            batch: fields.what,
            generation: fields.generation,
            pieces,
        });
    }
    if fields.count != 0 {
        return None;
    }
    plain_of(fields)
}
