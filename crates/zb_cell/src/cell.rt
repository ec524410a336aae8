ghost use Rattle.std.specs.Prelude.{◌≡◌, ◌≢◌, ◌↔◌, ◌≤◌, ◌<◌, ◌+◌, ◌^◌, ◌&&◌, ◌==◌, true, false, if◌then◌else◌, ℕ, List, length, None, Some, MatchOption, IsTrue, IfOk, OnOk, IsErrOf, is_err, slice_index};
ghost use Rattle.zb_outside.specs.Counts.{Touches, HasWritten, raised_by};
ghost use Rattle.zb_outside.specs.Runs.{IsSettled, Held, SparesOthers};
ghost use Rattle.zb_cell.specs.Cell.{value, value_of, bytes_at, counts, following, window, copy_for, turn_for, writes_for, IsBody};
ghost use Rattle.zb_cell.specs.Set.{SetTold, CloseTold, IsReady};
ghost use Rattle.zb_cell.specs.declared.cell.CellFault.TheVariants.{Blank, Stopped};
ghost use Rattle.zb_cell.specs.Faults.{is_stopped};
ghost use Rattle.zb_cell.specs.Work.{Works};

use zb_outside::{Bay, write_synced};
use zb_types::Failed;

/// Why a cell has no answer.
#[derive(Clone, Copy, Debug, PartialEq, Eq, Drop)]
pub enum CellFault {
    /// The cell has no value.
    Blank,
    /// A call of the platter failed.
    Stopped,
}

impl From<Failed> for CellFault {
    ghost from_gives = { λ _ e. e ≡ Stopped };

    fn from(_: Failed) -> Self {
        CellFault::Stopped
    }
}

// The copy that a change is written to.
#[derive(Clone, Copy, Drop)]
struct Work {
    // 0 or 64
    at: u64,
    turn: u8,
    is_open: bool,
}

fn is_counted(bytes: &[u8; 128], at: usize) -> bool
    requires { at ≤ 64 }
    ensures { result ≡ counts (slice_index bytes.now) at }
{
    bytes[at] == 1 && bytes[at + 1] < 3
}

/// The turn that follows a turn, as the one that replaces it has.
pub fn following(turn: u8) -> u8
    ensures { result ≡ following turn }
{
    ((u16::from(turn) + 1) % 3) as u8
}

fn work_on(bytes: &[u8; 128]) -> Work
    ensures works { Works (slice_index bytes.now) result }
    ensures place { result.at ≡ copy_for (slice_index bytes.now) }
    ensures turn { result.turn ≡ turn_for (slice_index bytes.now) }
{
    let first = is_counted(bytes, 0);
    let second = is_counted(bytes, 64);
    if first && !(second && bytes[65] == following(bytes[1])) {
        return Work {
            at: 64,
            turn: following(bytes[1]),
            is_open: bytes[64] == 1,
        };
    }
    Work {
        at: 0,
        turn: if second { following(bytes[65]) } else { 0 },
        is_open: bytes[0] == 1,
    }
}

// Bytes 1 to 63 of a copy.
fn body(turn: u8, payload: &[u8; 40]) -> [u8; 63]
    ensures long { length result ≡ 63 }
    ensures body { IsBody turn payload.now (slice_index result) }
{
    let mut bytes = [0; 63];
    bytes[0] = turn;
    for (i, byte) in payload.iter().enumerate() {
        bytes[7 + i] = *byte;
    }
    bytes
}

fn close_gate<B: Bay>(bay: &mut B, platter: usize, place: u64, is_open: bool) -> Result<(), Failed>
    requires platter { platter ≤ 255 }
    requires range { place + 1 ≤ 2 ^ 63 }
    ensures told { IsTrue B.tells → IsReady platter place is_open (B.meaning bay.old).now → CloseTold platter place result (B.meaning bay.old) (B.meaning bay.new) }
    ensures zero { IsTrue B.tells → IsReady platter place is_open (B.meaning bay.old).now → is_open ≡ true → OnOk result (slice_index ((B.meaning bay.new).now.seen platter) place ≡ 0) }
    ensures others { IsTrue B.tells → SparesOthers platter (B.meaning bay.old) (B.meaning bay.new) }
    ensures touches { Touches B.counts B.follows platter 1 (is_err result) bay.old bay.new }
    ensures written { HasWritten platter (if is_open then 1 else 0) (B.counts bay.old) (B.counts bay.new) }
{
    if !is_open {
        return Ok(());
    }
    write_synced(bay, platter, place, &[0])
}

/// Puts a value into the cell of 128 bytes at this place. Where no write of the platter is unsynced and the cell lies
/// within the platter, it holds at each moment the former value or this one, every other byte stays, and after Ok it holds
/// this one with nothing unsynced. It takes three writes, or two where the gate of the copy that is free is closed. The
/// other platters are as before at each moment, whatever this one holds.
///
/// `Stopped` comes only where a call of the platter failed.
pub fn set<B: Bay>(
    bay: &mut B,
    platter: usize,
    place: u64,
    payload: &[u8; 40],
) -> Result<(), CellFault>
    requires platter { platter ≤ 255 }
    requires range { place + 128 ≤ 2 ^ 63 }
    ensures told { IsTrue B.tells → IsSettled platter (B.meaning bay.old).now → place + 128 ≤ length ((B.meaning bay.old).now.seen platter) → SetTold platter place payload.now result (B.meaning bay.old) (B.meaning bay.new) }
    ensures others { IsTrue B.tells → SparesOthers platter (B.meaning bay.old) (B.meaning bay.new) }
    ensures blank { IsErrOf result CellFault.Blank → ⊥ }
    ensures touches { Touches B.counts B.follows platter 3 (is_stopped result) bay.old bay.new }
    ensures written { IsTrue B.tells → OnOk result (HasWritten platter (writes_for (bytes_at ((B.meaning bay.old).now.seen platter) place)) (B.counts bay.old) (B.counts bay.new)) }
    ensures least { OnOk result (raised_by 2 ((B.counts bay.old).writes platter) ≤ (B.counts bay.new).writes platter) }
{
    let mut bytes = [0; 128];
    bay.read_at(platter, place, &mut bytes)?;
    let work = work_on(&bytes);
    close_gate(bay, platter, place + work.at, work.is_open)?;
    let next = body(work.turn, payload);
    write_synced(bay, platter, place + work.at + 1, &next)?;
    write_synced(bay, platter, place + work.at, &[1])?;
    Ok(())
}

// Where the copy that holds the value stands.
fn holder(bytes: &[u8; 128]) -> Option<usize>
    ensures { MatchOption result (value_of (slice_index bytes.now) ≡ None) (λ at. (at ≤ 64) × (value_of (slice_index bytes.now) ≡ Some (window (slice_index bytes.now) (at + 8) 40))) }
{
    let first = is_counted(bytes, 0);
    let second = is_counted(bytes, 64);
    if second && (!first || bytes[65] == following(bytes[1])) {
        return Some(64);
    }
    if first { Some(0) } else { None }
}

// The payload of the copy at `at`.
fn payload_at(bytes: &[u8; 128], at: usize) -> [u8; 40]
    requires { at ≤ 64 }
    ensures { result ≡ window (slice_index bytes.now) (at + 8) 40 }
{
    let mut payload = [0; 40];
    for i in 0..40 {
        payload[i] = bytes[at + 8 + i];
    }
    payload
}

/// The value of the cell of 128 bytes at this place.
///
/// `Blank` comes where the cell has no value, and `Stopped` only where a call of the platter failed.
pub fn get<B: Bay>(bay: &mut B, platter: usize, place: u64) -> Result<[u8; 40], CellFault>
    requires platter { platter ≤ 255 }
    requires range { place + 128 ≤ 2 ^ 63 }
    ensures told { IsTrue B.tells → Held platter (B.meaning bay.old) (B.meaning bay.new) }
    ensures value { IsTrue B.tells → IfOk result (λ payload. value ((B.meaning bay.old).now.seen platter) place ≡ Some payload) }
    ensures blank { IsTrue B.tells → IsErrOf result Blank → value ((B.meaning bay.old).now.seen platter) place ≡ None }
    ensures touches { Touches B.counts B.follows platter 0 (is_stopped result) bay.old bay.new }
{
    let mut bytes = [0; 128];
    bay.read_at(platter, place, &mut bytes)?;
    match holder(&bytes) {
        Some(at) => Ok(payload_at(&bytes, at)),
        None => Err(CellFault::Blank),
    }
}
