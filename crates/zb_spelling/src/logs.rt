ghost use Rattle.std.specs.Prelude.{◌≡◌, ◌+◌, ◌≤◌, ◌<◌, ◌^◌, ◌++◌, ℕ, Bool, length, IfSome, OnOk};
ghost use Rattle.std.specs.List.{flat_map, AllByRecursion};
ghost use Rattle.std.specs.Option.{option_map};
ghost use Rattle.zb_types.specs.declared.tables.HeldUse.{HeldUse as PlainHeld};
ghost use Rattle.zb_numbers.specs.Fronts.{ReadsFront};
ghost use Rattle.zb_numbers.specs.Numbers.{number_text};
ghost use Rattle.zb_log_tables.specs.Logs.{IsLast, state_of, states_of};
ghost use Rattle.zb_tables.specs.Tables.{LogState};
ghost use Rattle.zb_tables.specs.Fold.{following as stripe_behind};
ghost use Rattle.zb_spelling.specs.Spelling.{held_text, list_text, log_text, owner_text};
ghost use Rattle.zb_spelling.specs.Reading.{IsAny, IsHeldRow, IsLogRow};

use crate::listed::{Readable, Written, push_count, push_list, read_list};
use std::alloc::Global;
use zb_log_tables::{Log, LogTable, ReplyList};
use zb_numbers::{append, are_zeros, push_u32, push_u64, split_u32, split_u64};
use zb_types::{ByteList, HeldUse, LogId, Mem, NoMemory, Reply};

/// How many bytes of a log stand before its replies.
const LOG: usize = 32;

/// How many bytes a held stripe takes.
const HELD: usize = 24;

/// The numbers of a log's last batch, its last stripe and its mark.
#[derive(Drop)]
struct Marks {
    batch: u64,
    last: Option<u64>,
    mark: u64,
}

// Whose a log is, and whether it lives.
fn read_owner(bytes: &[u8]) -> Option<((u8, bool), &[u8])>
    requires { 4 ≤ length bytes.now }
    ensures front { ReadsFront IsAny owner_text bytes.now (option_map (λ found. (found.0, found.1.now)) result) }
    ensures length { IfSome result (λ found. length found.1.now + 4 ≡ length bytes.now) }
{
    let [owner, flag, rest @ ..] = bytes else {
        return None;
    };
    let (zeros, rest) = rest.split_at(2);
    if *flag > 1 || !are_zeros(zeros) {
        return None;
    }
    Some(((*owner, *flag == 1), rest))
}

// The stripe before this one; none before the first.
fn before(stripe: u64) -> Option<u64>
    ensures last { IsLast result }
    ensures behind { stripe_behind result ≡ stripe }
{
    if stripe == 0 {
        return None;
    }
    Some(stripe - 1)
}

fn read_marks(bytes: &[u8]) -> (Marks, &[u8])
    requires { 24 ≤ length bytes.now }
    ensures last { IsLast result.0.last }
    ensures whole { number_text 8 result.0.batch ++ (number_text 8 (stripe_behind result.0.last) ++ (number_text 8 result.0.mark ++ result.1.now)) ≡ bytes.now }
{
    let (batch, rest) = split_u64(bytes);
    let (following, rest) = split_u64(rest);
    let (mark, rest) = split_u64(rest);
    let marks = Marks {
        batch,
        last: before(following),
        mark,
    };
    (marks, rest)
}

impl Readable for Log {
    ghost Plain = { ℕ × LogState };

    ghost plain = { λ log. (log.number, state_of log) };

    ghost Is = { IsLogRow };

    ghost text = { log_text };

    fn read(alloc: Global, bytes: &[u8]) -> Mem<Option<(Log, &[u8])>> {
        if bytes.len() < LOG {
            return Ok(None);
        }
        let (number, rest) = split_u32(bytes);
        let Some(((owner, live), rest)) = read_owner(rest) else {
            return Ok(None);
        };
        let (marks, rest) = read_marks(rest);
        let Some((replies, rest)) = read_list::<Reply>(alloc, rest)? else {
            return Ok(None);
        };
        let log = Log {
            number,
            owner,
            live,
            batch: marks.batch,
            replies: ReplyList::of(replies),
            last: marks.last,
            mark: marks.mark,
        };
        Ok(Some((log, rest)))
    }
}

// The stripe behind the last one.
fn following(last: Option<u64>) -> u64
    requires { IsLast last }
    ensures { result ≡ stripe_behind last }
{
    match last {
        None => 0,
        Some(stripe) => stripe + 1,
    }
}

fn push_log(alloc: Global, to: &mut ByteList, log: &Log) -> Mem<()>
    requires { IsLast log.now.last }
    ensures text { OnOk result (to.new ≡ to.old ++ log_text (log.now.number, state_of log.now)) }
    ensures count { OnOk result (length log.now.replies < 2 ^ 32) }
{
    push_u32(alloc, to, log.number)?;
    append(alloc, to, &[log.owner, u8::from(log.live), 0, 0])?;
    push_u64(alloc, to, log.batch)?;
    push_u64(alloc, to, following(log.last))?;
    push_u64(alloc, to, log.mark)?;
    push_list(alloc, to, log.replies.slice())
}

fn push_all(alloc: Global, to: &mut ByteList, logs: &[Log]) -> Mem<()>
    requires { AllByRecursion (λ log. IsLast log.last) logs.now }
    ensures text { OnOk result (to.new ≡ to.old ++ flat_map log_text (states_of logs.now)) }
    ensures counts { OnOk result (AllByRecursion (λ e. length (e.1).replies < 2 ^ 32) (states_of logs.now)) }
{
    let mut rest = logs;
    while let Some((log, others)) = rest.split_first() {
        push_log(alloc, to, log)?;
        rest = others;
    }
    Ok(())
}

/// Writes the logs behind their count, or a part of that where memory runs out, or where a count has no room.
pub(crate) fn push_logs(alloc: Global, to: &mut ByteList, logs: &LogTable) -> Mem<()>
    ensures text { OnOk result (to.new ≡ to.old ++ list_text log_text logs.now.logs) }
    ensures counts { OnOk result (AllByRecursion (λ e. length (e.1).replies < 2 ^ 32) logs.now.logs) }
{
    let logs = logs.slice();
    push_count(alloc, to, logs.len())?;
    push_all(alloc, to, logs)
}

impl Written for HeldUse {
    ghost text = { held_text };

    fn push(&self, alloc: Global, to: &mut ByteList) -> Mem<()> {
        push_u32(alloc, to, self.log.0)?;
        push_u64(alloc, to, self.stripe)?;
        push_u32(alloc, to, self.end)?;
        push_u64(alloc, to, self.born)
    }
}

impl Readable for HeldUse {
    ghost Plain = { PlainHeld };

    ghost plain = { λ held. held };

    ghost Is = { IsHeldRow };

    ghost text = { held_text };

    fn read(_alloc: Global, bytes: &[u8]) -> Mem<Option<(HeldUse, &[u8])>> {
        if bytes.len() < HELD {
            return Ok(None);
        }
        let (log, rest) = split_u32(bytes);
        let (stripe, rest) = split_u64(rest);
        let (end, rest) = split_u32(rest);
        let (born, rest) = split_u64(rest);
        let held = HeldUse {
            log: LogId(log),
            stripe,
            end,
            born,
        };
        Ok(Some((held, rest)))
    }
}
