ghost use Rattle.std.specs.Prelude.{◌≡◌, ◌-◌, ℕ, max, ◌<◌, ◌≤◌, [], ◌∷◌, ◌++◌, All, length, map, option_map, IfOk, OnOk};
ghost use Rattle.std.specs.Option.{option_copied};
ghost use Rattle.std.specs.Map.{keys_of};
ghost use Rattle.std.specs.List.{AllByRecursion};
ghost use Rattle.zb_types.specs.Keyed.{look, changed};
ghost use Rattle.zb_tables.specs.Fold.{ended, following as stripe_behind, kept_logs, last_of as last_with, later, marked, new_log, with_batch};
ghost use Rattle.zb_tables.specs.Finding.{use_of};
ghost use Rattle.zb_log_tables.specs.declared.log.Log.{Log};
ghost use Rattle.zb_log_tables.specs.Logs.{IsLast, IsPlace, StripeFits, ended_log, marked_log, state_of, states_of};

use crate::held::HeldTable;
use crate::log::{Log, ReplyList};
use std::alloc::Global;
use std::marker::Model;
use zb_types::{LogId, LogUse, LogUseList, Mem, NoMemory, Piece};

// The stripe behind a log's last committed one.
fn following(last: Option<u64>) -> u64
    requires { IsLast last }
    ensures { result ≡ stripe_behind last }
{
    match last {
        None => 0,
        Some(stripe) => stripe + 1,
    }
}

// The greater of a last stripe, if there is one, and another.
fn greater(last: Option<u64>, stripe: u64) -> u64
    ensures { result ≡ later stripe last }
{
    match last {
        None => stripe,
        Some(last) => last.max(stripe),
    }
}

// The greatest stripe of a last one and some pieces.
fn last_of(last: Option<u64>, pieces: &[Piece]) -> Option<u64>
    ensures { result ≡ last_with last pieces.now }
{
    let mut last = last;
    let mut rest = pieces;
    while let Some((piece, others)) = rest.split_first() {
        last = Some(greater(last, piece.stripe));
        rest = others;
    }
    last
}

// A log ends, if it is this owner's.
fn end_one(log: &mut Log, owner: u8)
    ensures { log.new ≡ ended_log owner log.old }
{
    if log.owner == owner {
        log.live = false;
    }
}

// The logs of this owner end.
fn end_all(logs: &mut [Log], owner: u8)
    ensures { logs.new ≡ map (ended_log owner) logs.old }
{
    for log in logs.iter_mut() {
        end_one(log, owner);
    }
}

// A log, if it lives, may commit behind its last stripe alone.
fn mark_one(log: &mut Log)
    requires { IsLast log.old.last }
    ensures { log.new ≡ marked_log log.old }
{
    if log.live {
        log.mark = following(log.last);
    }
}

// Live logs may commit behind their last stripes alone.
fn mark_all(logs: &mut [Log])
    requires { All (λ (log : Log). IsLast log.last) logs.old }
    ensures { logs.new ≡ map marked_log logs.old }
{
    for log in logs.iter_mut() {
        mark_one(log);
    }
}

// A log, as a status tells it.
fn use_of(log: &Log) -> LogUse
    ensures { result ≡ use_of (log.now.number, state_of log.now) }
{
    LogUse {
        log: LogId(log.number),
        live: log.live,
        last: log.last,
        batch: log.batch,
    }
}

// Logs, as a status tells them.
fn uses_of(alloc: Global, logs: &[Log]) -> Mem<LogUseList>
    ensures { IfOk result (λ uses. uses ≡ map use_of (states_of logs.now)) }
{
    let mut uses = LogUseList::new(alloc)?;
    let mut rest = logs;
    while let Some((log, others)) = rest.split_first() {
        uses.push(use_of(log))?;
        rest = others;
    }
    Ok(uses)
}

/// Logs by number, with room for more.
#[derive(Drop)]
pub struct LogTable {
    pub(crate) logs: Vec<Log>,
}

impl Model for LogTable {
    ghost use Rattle.zb_log_tables.specs.HeldStripes.{room_of};
    ghost use Rattle.zb_log_tables.specs.Logs.{SeenLogs, AreLogs, states_of};

    ghost Value = { SeenLogs };

    ghost view = { λ a. record { logs = states_of a.logs.items; room = room_of a.logs } };

    ghost invariant = { λ a. AreLogs a.logs.items };
}

impl LogTable {
    /// No logs.
    pub fn new(alloc: Global) -> LogTable
        ensures { result.logs ≡ [] }
    {
        LogTable {
            logs: Vec::new(alloc),
        }
    }

    // Where a log is, or where it would go.
    fn place(&self, log: LogId) -> usize
        ensures bound { result ≤ length self.now.logs }
        ensures place { IsPlace self.now.logs log.0 result }
    {
        self.logs.partition_point(|found| found.number < log.0)
    }

    /// A log of the table. None where it isn't there.
    pub fn find(&self, log: LogId) -> Option<&Log>
        ensures { option_map state_of (option_copied result) ≡ look log.0 self.now.logs }
    {
        let i = self.place(log);
        if i >= self.logs.len() {
            return None;
        }
        let found = &self.logs[i];
        if found.number != log.0 {
            return None;
        }
        Some(found)
    }

    /// Makes room for one more log.
    pub fn reserve(&mut self) -> Mem<()>
        ensures same { self.new.logs ≡ self.old.logs }
        ensures ok { OnOk result (1 ≤ self.new.room) }
    {
        self.logs.reserve(1)?;
        Ok(())
    }

    /// The live log of an owner ends, if it has one.
    pub fn end_of(&mut self, owner: u8)
        ensures logs { self.new.logs ≡ changed (ended owner) self.old.logs }
        ensures numbers { keys_of self.new.logs ≡ keys_of self.old.logs }
        ensures room { self.new.room ≡ self.old.room }
    {
        end_all(&mut self.logs, owner);
    }

    /// Live logs may commit behind their last stripes alone.
    pub fn mark(&mut self)
        ensures logs { self.new.logs ≡ changed marked self.old.logs }
        ensures numbers { keys_of self.new.logs ≡ keys_of self.old.logs }
        ensures room { self.new.room ≡ self.old.room }
    {
        mark_all(&mut self.logs);
    }

    /// Drops the logs that neither live nor have a held stripe.
    pub fn keep(&mut self, held: &HeldTable)
        ensures logs { self.new.logs ≡ kept_logs held.now.stripes self.old.logs }
        ensures numbers { (n : ℕ) → AllByRecursion (λ k. k < n) (keys_of self.old.logs) → AllByRecursion (λ k. k < n) (keys_of self.new.logs) }
        ensures room { self.old.room ≤ self.new.room }
    {
        self.logs
            .retain(|log| log.live || held.holds_any(log.number));
    }

    /// Adds a live log behind all others, without memory. There has to be room for it, and its number has to be above
    /// theirs.
    pub fn add(&mut self, alloc: Global, log: LogId, owner: u8)
        requires room { 1 ≤ self.old.room }
        requires last { AllByRecursion (λ n. n < log.0) (keys_of self.old.logs) }
        ensures logs { self.new.logs ≡ self.old.logs ++ (log.0, new_log owner) ∷ [] }
    {
        let new = Log {
            number: log.0,
            owner,
            live: true,
            batch: 0,
            replies: ReplyList::of(Vec::new(alloc)),
            last: None,
            mark: 0,
        };
        let _ = self.logs.push(new);
    }

    /// A log's last batch is this, with its replies, and its last stripe the greatest of its own and the pieces'; without
    /// memory. Nothing changes where the log isn't there.
    pub fn commit(&mut self, log: LogId, number: u64, pieces: &[Piece], replies: ReplyList)
        requires { AllByRecursion StripeFits pieces.now }
        ensures logs { self.new.logs ≡ with_batch log number pieces.now replies self.old.logs (look log.0 self.old.logs) }
        ensures numbers { keys_of self.new.logs ≡ keys_of self.old.logs }
        ensures room { self.new.room ≡ self.old.room }
    {
        let i = self.place(log);
        if i >= self.logs.len() {
            return;
        }
        if self.logs[i].number != log.0 {
            return;
        }
        let found = &mut self.logs[i];
        found.batch = number;
        found.last = last_of(found.last, pieces);
        found.replies = replies;
    }

    /// The logs, as a status tells them.
    pub fn uses(&self, alloc: Global) -> Mem<LogUseList>
        ensures { IfOk result (λ uses. uses ≡ map use_of self.now.logs) }
    {
        uses_of(alloc, &self.logs)
    }
}
