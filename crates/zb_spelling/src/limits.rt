ghost use Rattle.std.specs.Prelude.{◌≡◌, ◌≤◌, ◌↔◌, false, IsTrue, map};
ghost use Rattle.std.specs.List.{AllByRecursion};
ghost use Rattle.zb_log_tables.specs.Logs.{state_of, states_of};
ghost use Rattle.zb_tables.specs.Taking.{IsPointer, IsState, stripe_room};
ghost use Rattle.zb_spelling.specs.Limits.{AreWithin, EachLivesOnce, FileFits, FilesFit, HeadFits, HeldFits, IsCount, LogFits, LogsFit, StripesFit, lives_again};
ghost use Rattle.zb_spelling.specs.Reading.{shown_file, shown_tables};
ghost use Rattle.zb_spelling.specs.Unspelling.{sizes_of};

use crate::head::Head;
use crate::rising::rise;
use crate::rows::{FileRow, Rows};
use zb_log_tables::Log;
use zb_types::{Geometry, HeldUse, MAX_FILE, Ptr, State};

/// The last value of a number that rises.
const LAST_VALUE: u64 = 281_474_976_710_656;

/// The most names.
const MAX_NAMES: usize = 4_096;

/// How many bytes have room in a stripe.
pub fn stripe_room(geo: &Geometry) -> u64
    ensures { result ≡ stripe_room (sizes_of geo.now) }
{
    u64::from(geo.servers - 1) * u64::from(geo.fragment)
}

/// Whether a pointer names from one byte to a whole block, within a stripe.
pub fn is_pointer(geo: &Geometry, ptr: &Ptr) -> bool
    ensures { IsTrue result ↔ IsPointer (sizes_of geo.now) ptr.now }
{
    1 <= ptr.len
        && ptr.len <= geo.block
        && u64::from(ptr.offset) + u64::from(ptr.len) <= stripe_room(geo)
}

fn is_count(number: u64) -> bool
    ensures { IsTrue result ↔ IsCount number }
{
    1 <= number && number <= LAST_VALUE
}

fn are_pointers(geo: &Geometry, blocks: &[(u32, Ptr)]) -> bool
    ensures { IsTrue result ↔ AllByRecursion (λ k. IsPointer (sizes_of geo.now) k.1) blocks.now }
{
    blocks.iter().all(|block| is_pointer(geo, &block.1))
}

fn file_fits(geo: &Geometry, next: u32, row: &FileRow) -> bool
    ensures { IsTrue result ↔ FileFits (sizes_of geo.now) next (shown_file row.now) }
{
    if row.fid.0 == 0 || row.fid.0 >= next {
        return false;
    }
    if !is_count(row.head.version) || row.head.length as usize > MAX_FILE {
        return false;
    }
    rise(&row.blocks) && are_pointers(geo, &row.blocks)
}

fn each_file_fits(geo: &Geometry, next: u32, files: &[FileRow]) -> bool
    ensures { IsTrue result ↔ AllByRecursion (λ row. FileFits (sizes_of geo.now) next (shown_file row)) files.now }
{
    let mut rest = files;
    while let Some((row, others)) = rest.split_first() {
        if !file_fits(geo, next, row) {
            return false;
        }
        rest = others;
    }
    true
}

fn files_fit(geo: &Geometry, next: u32, files: &[FileRow]) -> bool
    ensures { IsTrue result ↔ FilesFit (sizes_of geo.now) next (map shown_file files.now) }
{
    rise(files) && each_file_fits(geo, next, files)
}

fn log_fits(geo: &Geometry, next: u32, log: &Log) -> bool
    ensures { IsTrue result ↔ LogFits (sizes_of geo.now) next (log.now.number, state_of log.now) }
{
    if log.number == 0 || log.number >= next {
        return false;
    }
    u32::from(log.owner) <= geo.clients && log.batch <= LAST_VALUE
}

// Whether an owner has two live logs.
fn lives_again(logs: &[Log], owner: u32) -> bool
    ensures { result ≡ lives_again owner false (states_of logs.now) }
{
    let mut found = false;
    let mut rest = logs;
    while let Some((log, others)) = rest.split_first() {
        if log.live && u32::from(log.owner) == owner {
            if found {
                return true;
            }
            found = true;
        }
        rest = others;
    }
    false
}

// It goes through the logs once for each owner.
fn each_lives_once(geo: &Geometry, logs: &[Log]) -> bool
    ensures { IsTrue result ↔ EachLivesOnce (sizes_of geo.now).clients (states_of logs.now) }
{
    for owner in 0..geo.clients + 1 {
        if lives_again(logs, owner) {
            return false;
        }
    }
    true
}

fn each_log_fits(geo: &Geometry, next: u32, logs: &[Log]) -> bool
    ensures { IsTrue result ↔ AllByRecursion (λ log. LogFits (sizes_of geo.now) next (log.number, state_of log)) logs.now }
{
    logs.iter().all(|log| log_fits(geo, next, log))
}

fn logs_fit(geo: &Geometry, next: u32, logs: &[Log]) -> bool
    ensures { IsTrue result ↔ LogsFit (sizes_of geo.now) next (states_of logs.now) }
{
    if !rise(logs) {
        return false;
    }
    if !each_lives_once(geo, logs) {
        return false;
    }
    each_log_fits(geo, next, logs)
}

fn held_fits(geo: &Geometry, held: &HeldUse) -> bool
    ensures { IsTrue result ↔ HeldFits (sizes_of geo.now) held.now }
{
    1 <= held.end && u64::from(held.end) <= stripe_room(geo) && is_count(held.born)
}

fn each_stripe_fits(geo: &Geometry, held: &[HeldUse]) -> bool
    ensures { IsTrue result ↔ AllByRecursion (HeldFits (sizes_of geo.now)) held.now }
{
    held.iter().all(|stripe| held_fits(geo, stripe))
}

fn stripes_fit(geo: &Geometry, held: &[HeldUse]) -> bool
    ensures { IsTrue result ↔ StripesFit (sizes_of geo.now) held.now }
{
    rise(held) && each_stripe_fits(geo, held)
}

fn is_state(geo: &Geometry, state: State) -> bool
    ensures { IsTrue result ↔ IsState (sizes_of geo.now).servers state }
{
    match state {
        State::Whole => true,
        State::Out(server) | State::Mending(server) => {
            1 <= server.0 && u32::from(server.0) <= geo.servers
        }
    }
}

fn head_fits(geo: &Geometry, head: &Head) -> bool
    ensures { IsTrue result ↔ HeadFits (sizes_of geo.now) head.now }
{
    let members = head.numbers.members;
    if !is_state(geo, members.state) || !is_count(members.generation) {
        return false;
    }
    head.numbers.next_log != 0 && is_count(head.numbers.next_entry)
}

/// Whether what was read is within its limits, part by part. It goes through all of it once, and through the logs once
/// for each owner.
pub(crate) fn are_within(geo: &Geometry, rows: &Rows) -> bool
    ensures { IsTrue result ↔ AreWithin (sizes_of geo.now) (shown_tables rows.now) }
{
    if !head_fits(geo, &rows.head) || rows.names.len() > MAX_NAMES {
        return false;
    }
    if !files_fit(geo, rows.head.next_file, &rows.files) {
        return false;
    }
    logs_fit(geo, rows.head.numbers.next_log, &rows.logs) && stripes_fit(geo, &rows.held)
}
