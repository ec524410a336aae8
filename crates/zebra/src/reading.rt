ghost use Rattle.std.specs.Prelude.{◌≡◌, ◌≢◌, [], None, false, IfOk};
ghost use Rattle.zebra.specs.Rows.{next_of, NextIs, MovesOn};
ghost use Rattle.zebra.specs.Pending.{wants_more};

use crate::source::Source;
use std::alloc::Global;
use zb_script::{Parsed, Script};
use zb_types::{Call, Kind, Line, Mem, NoMemory, Node};

/// Where the rows of a script end.
#[derive(Clone, Copy, Debug, PartialEq, Eq)]
pub enum Ending {
    /// At the end of the script.
    End,
    /// At the line with this number, which isn't one of the language, or reaches past the script's limit.
    Bad { number: u64 },
    /// At the line with this number, whose form the program doesn't run so far.
    Later { number: u64 },
}

/// A line of a script that the program carries out so far.
#[derive(Drop)]
pub enum Action {
    /// A call for a client; one with a plus isn't waited for.
    Call { plus: bool, client: u8, call: Call },
    /// At most so many steps of a client.
    Steps { client: u8, count: u32 },
    /// Steps of a client until its next one is of this kind.
    Until { client: u8, kind: Kind },
}

/// What comes next in a script behind its header. A row with its end has `len` bytes.
#[derive(Drop)]
pub enum Next {
    Run { action: Action, len: usize },
    /// An empty line or a comment.
    Skipped { len: usize },
    Ended(Ending),
}

// What a line asks for, if the program runs such a line so far.
fn next_of(number: u64, line: Line, len: usize) -> Next
    ensures { result ≡ next_of number line len }
{
    let action = match line {
        Line::Call { plus, client, call } => Action::Call { plus, client, call },
        Line::Steps {
            actor: Node::Client(client),
            count,
        } => Action::Steps { client, count },
        Line::StepTo {
            actor: Node::Client(client),
            kind,
        } => Action::Until { client, kind },
        _ => return Next::Ended(Ending::Later { number }),
    };
    Next::Run { action, len }
}

// Where a script ends whose pending bytes have no line end and may not go on.
fn unended(number: u64, rest: &[u8]) -> Ending
    ensures none { rest.now ≡ [] → result ≡ Ending.End }
    ensures some { rest.now ≢ [] → result ≡ Ending.Bad number }
{
    if rest.is_empty() {
        Ending::End
    } else {
        Ending::Bad { number }
    }
}

/// Reads what the pending bytes begin with.
pub fn next_row(alloc: Global, script: &mut Script, source: &Source) -> Mem<Next>
    requires system { script.old.geo ≢ None }
    requires whole { wants_more source.now ≡ false }
    ensures next { IfOk result (NextIs script.old source.now) }
    ensures moves { IfOk result (λ next. MovesOn script.old next script.new) }
    ensures geo { script.new.geo ≡ script.old.geo }
{
    let number = script.line_number();
    let rest = source.rest();
    Ok(match script.next(alloc, rest)? {
        Parsed::Line { line, used } => next_of(number, line, used),
        Parsed::Skipped { used } => Next::Skipped { len: used },
        Parsed::More => Next::Ended(unended(number, rest)),
        Parsed::Bad { number } => Next::Ended(Ending::Bad { number }),
        Parsed::Header { .. } => Next::Ended(Ending::Bad { number }),
    })
}
