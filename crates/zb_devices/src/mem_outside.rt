ghost use Rattle.std.specs.Prelude.{◌≡◌, ◌≤◌, ◌+◌, ◌-◌, ◌^◌, ◌==◌, min, true, IsTrue, IfOk, OnErr, is_ok, is_err, if◌then◌else◌, length};
ghost use Rattle.std.specs.List.{list_any};
ghost use Rattle.zb_outside.specs.Counts.{Touches, TouchesScript, TouchesReport, HasWritten};
ghost use Rattle.zb_outside.specs.Platters.{ReadTold, WriteTold, SyncTold, RestartTold, BlankTold};
ghost use Rattle.zb_outside.specs.Streams.{TakeTold, PutTold};
ghost use Rattle.zb_devices.specs.Memory.{IsKept, AllEmpty};
ghost use Rattle.zb_devices.specs.Record.{written, write_failed, failed, synced, restarted, blanked};

use crate::device::{Counts, Device};
use crate::plate::Plate;
use std::alloc::Global;
use zb_outside::{Bay, Outside};
use zb_types::{Failed, Mem};

// Counts a device call, and says whether it is to fail.
fn next_fails(calls: &mut u64, failing: &[u64]) -> bool
    ensures counted { calls.new ≡ min (calls.old + 1) (2 ^ 64 - 1) }
    ensures later { calls.old ≤ calls.new }
    ensures listed { result ≡ list_any (λ n. n == calls.new) failing.now }
{
    *calls = calls.saturating_add(1);
    failing.contains(calls)
}

// Platters that were never written.
fn empty_plates(alloc: Global) -> Mem<Vec<Plate>>
    ensures long { IfOk result (λ plates. length plates.items ≡ 256) }
    ensures empty { IfOk result (λ plates. AllEmpty plates.items) }
{
    let mut plates = Vec::new(alloc);
    for i in 0..256usize {
        plates.push(Plate::new(alloc))?;
    }
    Ok(plates)
}

/// An outside in memory, which tells everything, by a record of its device calls.
///
/// A device call, counted from 1, fails exactly where its number is one of those that are to fail, or where memory ran
/// out in it; once there is no memory for the record, each call but a read does. A put that fails prints nothing, and a
/// write that fails changes no byte that a read gives, yet counts as a range written. The n-th restart leaves what the
/// n-th choice says: for 0, or where there is none, no range written since the platter's sync, for 1 all of them, and for
/// another value that byte in each place of them.
#[derive(Drop)]
pub struct MemOutside {
    device: Device,
    choices: Vec<u8>,
    restarts: usize,
    failing: Vec<u64>,
    calls: u64,
    ghost kept: { IsKept device },
}

impl MemOutside {
    ghost use Rattle.zb_outside.specs.Meaning.{IsFresh};
    ghost use Rattle.zb_devices.specs.MemOutside.{failing_of, choices_of, calls_of, restarts_of, starved_of};

    /// An outside with this script, whose device calls with the numbers `failing` fail. `choices` says what restarts of
    /// platters leave.
    pub fn new(alloc: Global, script: &[u8], choices: &[u8], failing: &[u64]) -> Mem<MemOutside>
        ensures fresh { IfOk result (λ outside. IsFresh (⟦<MemOutside as Bay>⟧.meaning outside).now) }
        ensures left { IfOk result (λ outside. (⟦<MemOutside as Bay>⟧.counts outside).streams.left ≡ script.now) }
        ensures read_faults { IfOk result (λ outside. (⟦<MemOutside as Bay>⟧.counts outside).streams.read_faults ≡ 0) }
        ensures write_faults { IfOk result (λ outside. (⟦<MemOutside as Bay>⟧.counts outside).streams.write_faults ≡ 0) }
        ensures recording { IfOk result (λ outside. IsTrue (⟦<MemOutside as Bay>⟧.meaning outside).is_recording) }
        ensures failing { IfOk result (λ outside. failing_of outside ≡ failing.now) }
        ensures choices { IfOk result (λ outside. choices_of outside ≡ choices.now) }
        ensures calls { IfOk result (λ outside. calls_of outside ≡ 0) }
        ensures restarts { IfOk result (λ outside. restarts_of outside ≡ 0) }
        ensures starved { IfOk result (λ outside. starved_of outside ≡ 0) }
    {
        let script = Vec::from_slice(alloc, script)?;
        let choices = Vec::from_slice(alloc, choices)?;
        let failing = Vec::from_slice(alloc, failing)?;
        let plates = empty_plates(alloc)?;
        let counts = Counts {
            faults: [0; 256],
            writes: [0; 256],
            read_faults: 0,
            write_faults: 0,
        };
        let device = Device {
            alloc,
            script,
            taken: 0,
            printed: Vec::new(alloc),
            plates,
            events: Vec::new(alloc),
            counts,
            starved: 0,
            is_frozen: false,
        };
        Ok(MemOutside {
            device,
            choices,
            restarts: 0,
            failing,
            calls: 0,
        })
    }

    /// The bytes that were printed.
    pub fn printed(&self) -> &[u8]
        ensures { result.now ≡ (⟦<MemOutside as Bay>⟧.meaning self.now).now.printed }
    {
        self.device.printed.as_slice()
    }

    /// What a read of platter `i` gives.
    pub fn platter(&self, i: usize) -> &[u8]
        requires { i ≤ 255 }
        ensures { result.now ≡ (⟦<MemOutside as Bay>⟧.meaning self.now).now.seen i }
    {
        self.device.plates[i].seen.as_slice()
    }

    /// How many device calls failed for want of memory.
    pub fn starved(&self) -> u64
        ensures { result ≡ starved_of self.now }
    {
        self.device.starved
    }
}

impl Bay for MemOutside {
    ghost use Rattle.zb_devices.specs.MemOutside.{meaning_of, counts_of, calls_of, restarts_of, next_call, next_choice, AnswersAs, MemFollows, mem_same, mem_then};
    ghost use Rattle.zb_devices.specs.Memory.{exact_counts, exact_streams};

    ghost tells = { true };

    ghost meaning = { meaning_of };

    ghost counts = { counts_of };

    ghost is_exact = { true };

    ghost follows = { MemFollows };

    fn read_at(&mut self, platter: usize, place: u64, buf: &mut [u8]) -> Result<(), Failed>
        requires platter { platter ≤ 255 }
        requires range { place + length buf.old ≤ 2 ^ 63 }
        ensures told { ReadTold platter place buf.new result (meaning_of self.old) (meaning_of self.new) }
        ensures touches { Touches counts_of MemFollows platter 0 (is_err result) self.old self.new }
        ensures answers { AnswersAs platter result self.old self.new (λ s. s) failed }
        ensures calls { calls_of self.new ≡ next_call self.old }
        ensures restarts { restarts_of self.new ≡ restarts_of self.old }
    {
        let fails = next_fails(&mut self.calls, &self.failing);
        self.device.read(fails, platter, place as usize, buf)
    }

    fn write_at(&mut self, platter: usize, place: u64, bytes: &[u8]) -> Result<(), Failed>
        requires platter { platter ≤ 255 }
        requires range { place + length bytes.now ≤ 2 ^ 63 }
        ensures told { WriteTold platter place bytes.now result (meaning_of self.old) (meaning_of self.new) }
        ensures touches { Touches counts_of MemFollows platter 1 (is_err result) self.old self.new }
        ensures written { HasWritten platter 1 (counts_of self.old) (counts_of self.new) }
        ensures answers { AnswersAs platter result self.old self.new (written place bytes.now) (write_failed place (length bytes.now)) }
        ensures calls { calls_of self.new ≡ next_call self.old }
        ensures restarts { restarts_of self.new ≡ restarts_of self.old }
    {
        let fails = next_fails(&mut self.calls, &self.failing);
        self.device.write(fails, platter, place as usize, bytes)
    }

    fn sync(&mut self, platter: usize) -> Result<(), Failed>
        requires platter { platter ≤ 255 }
        ensures told { SyncTold platter result (meaning_of self.old) (meaning_of self.new) }
        ensures touches { Touches counts_of MemFollows platter 0 (is_err result) self.old self.new }
        ensures answers { AnswersAs platter result self.old self.new synced failed }
        ensures calls { calls_of self.new ≡ next_call self.old }
        ensures restarts { restarts_of self.new ≡ restarts_of self.old }
    {
        let fails = next_fails(&mut self.calls, &self.failing);
        self.device.sync(fails, platter)
    }

    fn restart(&mut self, platter: usize) -> Result<(), Failed>
        requires platter { platter ≤ 255 }
        ensures told { RestartTold platter result (meaning_of self.old) (meaning_of self.new) }
        ensures touches { Touches counts_of MemFollows platter 0 (is_err result) self.old self.new }
        ensures answers { AnswersAs platter result self.old self.new (restarted (next_choice self.old)) failed }
        ensures calls { calls_of self.new ≡ next_call self.old }
        ensures restarts { restarts_of self.new ≡ (if is_ok result then min (restarts_of self.old + 1) (2 ^ 64 - 1) else restarts_of self.old) }
    {
        let fails = next_fails(&mut self.calls, &self.failing);
        let choice = self.choices.get(self.restarts).copied().unwrap_or(0);
        let answer = self.device.restart(fails, platter, choice);
        if answer.is_ok() {
            self.restarts = self.restarts.saturating_add(1);
        }
        answer
    }

    fn blank(&mut self, platter: usize) -> Result<(), Failed>
        requires platter { platter ≤ 255 }
        ensures told { BlankTold platter result (meaning_of self.old) (meaning_of self.new) }
        ensures touches { Touches counts_of MemFollows platter 0 (is_err result) self.old self.new }
        ensures answers { AnswersAs platter result self.old self.new blanked failed }
        ensures calls { calls_of self.new ≡ next_call self.old }
        ensures restarts { restarts_of self.new ≡ restarts_of self.old }
    {
        let fails = next_fails(&mut self.calls, &self.failing);
        self.device.blank(fails, platter)
    }

    ghost follows_same = { mem_same };

    ghost follows_then = { mem_then };

    ghost exact = { λ b _ _ records. exact_counts b.device b.kept records };
}

impl Outside for MemOutside {
    ghost use Rattle.zb_devices.specs.MemOutside.{meaning_of, counts_of, calls_of, restarts_of, next_call, StreamAnswersAs, MemFollows};
    ghost use Rattle.zb_devices.specs.Memory.{exact_counts, exact_streams};

    fn take(&mut self, buf: &mut [u8]) -> Result<usize, Failed>
        ensures bound { IfOk result (λ n. n ≤ length buf.new) }
        ensures told { TakeTold buf.new result (counts_of self.old).streams (counts_of self.new).streams (meaning_of self.old) (meaning_of self.new) }
        ensures touches { TouchesScript counts_of MemFollows (is_err result) self.old self.new }
        ensures answers { StreamAnswersAs result self.old self.new }
        ensures calls { calls_of self.new ≡ next_call self.old }
        ensures restarts { restarts_of self.new ≡ restarts_of self.old }
    {
        let fails = next_fails(&mut self.calls, &self.failing);
        self.device.take(fails, buf)
    }

    fn put(&mut self, bytes: &[u8]) -> Result<(), Failed>
        ensures told { PutTold bytes.now result (counts_of self.old).streams (counts_of self.new).streams (meaning_of self.old) (meaning_of self.new) }
        ensures none { OnErr result ((meaning_of self.new).now.printed ≡ (meaning_of self.old).now.printed) }
        ensures touches { TouchesReport counts_of MemFollows (is_err result) self.old self.new }
        ensures answers { StreamAnswersAs result self.old self.new }
        ensures calls { calls_of self.new ≡ next_call self.old }
        ensures restarts { restarts_of self.new ≡ restarts_of self.old }
    {
        let fails = next_fails(&mut self.calls, &self.failing);
        self.device.put(fails, bytes)
    }

    ghost counted = { λ o _ records. exact_streams o.device o.kept records };
}
