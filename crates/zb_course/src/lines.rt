ghost use Rattle.std.specs.Prelude.{◌≡◌, ◌≢◌, ◌≤◌, ◌<◌, ◌+◌, ◌++◌, [], length, IfOk, OnOk, IfSome, None};
ghost use Rattle.std.specs.List.{list_any, AllByRecursion};
ghost use Rattle.zb_claims.specs.Runs.{is_unfinished};
ghost use Rattle.zb_claims.specs.Text.{HasReply, report_text};
ghost use Rattle.zb_ledger.specs.Seen.{looked_now, told, told_all};
ghost use Rattle.zb_line_laws.specs.Calls.{lines_in};

use std::alloc::Global;
use zb_client::Told;
use zb_ledger::Ledger;
use zb_report::outcome;
use zb_types::{ItemList, Mem, NoMemory, Outcome, Said};

/// Lines that a step of a client told, and that aren't in the text yet.
#[derive(Drop)]
pub struct Untold {
    pub client: u8,
    pub lines: ItemList<Outcome>,
}

/// The lines that a step told, None where there are none.
pub fn lines_told(told: Told) -> Option<ItemList<Outcome>>
    ensures none { result ≡ None → lines_in told ≡ [] }
    ensures some { IfSome result (λ lines. (lines ≡ lines_in told) × (lines ≢ [])) }
{
    match told {
        Told::Nothing => None,
        Told::Lines(lines) => {
            if lines.slice().is_empty() {
                return None;
            }
            Some(lines)
        }
    }
}

/// The text of some lines.
pub fn text_of(alloc: Global, lines: &[Outcome]) -> Mem<Vec<u8>>
    ensures text { IfOk result (λ text. text.items ≡ report_text lines.now) }
    ensures values { OnOk result (AllByRecursion HasReply lines.now) }
{
    let mut out = Vec::new(alloc);
    let mut rest = lines;
    while let [line, others @ ..] = rest {
        out.extend_from_slice(outcome(alloc, line)?.slice())?;
        rest = others;
    }
    Ok(out)
}

// Whether a line tells of a call that is unfinished.
fn is_unfinished(line: &Outcome) -> bool
    ensures { result ≡ is_unfinished line.now }
{
    matches!(
        line,
        Outcome::Call {
            said: Said::Unfinished(_),
            ..
        }
    )
}

/// Whether one of these lines tells of a call that is unfinished.
pub fn any_unfinished(lines: &[Outcome]) -> bool
    ensures { result ≡ list_any is_unfinished lines.now }
{
    let mut rest = lines;
    while let [line, others @ ..] = rest {
        if is_unfinished(line) {
            return true;
        }
        rest = others;
    }
    false
}

// Tells a ledger a line of a client, whose read is then looked up.
fn tell_one(ledger: &mut Ledger, client: u8, line: Outcome)
    requires own { client ≤ ledger.old.clients }
    requires room { 0 < ledger.old.room }
    ensures told { ledger.new ≡ looked_now (told ledger.old line) client }
    ensures clients { ledger.new.clients ≡ ledger.old.clients }
    ensures room { ledger.new.room + 1 ≡ ledger.old.room }
{
    ledger.tell(line);
    ledger.look(client);
}

/// Tells a ledger lines of a client, one after the other; behind each of them its read is looked up.
pub fn tell_all(ledger: &mut Ledger, client: u8, lines: ItemList<Outcome>)
    requires own { client ≤ ledger.old.clients }
    requires room { length lines ≤ ledger.old.room }
    ensures { ledger.new ≡ told_all ledger.old client lines }
{
    let mut rest = lines.into_items();
    rest.reverse();
    while let Some(line) = rest.pop() {
        tell_one(ledger, client, line);
    }
}
