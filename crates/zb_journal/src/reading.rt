ghost use Rattle.std.specs.Prelude.{◌≡◌, ◌≤◌, ◌<◌, ◌+◌, ◌*◌, ◌^◌, ◌++◌, ◌↔◌, ℕ, drop, length, slice_index, IsTrue, IsErrOf, IfOk};
ghost use Rattle.std.specs.List.{flat_map, AllByRecursion};
ghost use Rattle.std.specs.Option.{option_map};
ghost use Rattle.zb_outside.specs.Counts.{Touches};
ghost use Rattle.zb_outside.specs.Ranges.{Reads};
ghost use Rattle.zb_outside.specs.Runs.{Held};
ghost use Rattle.zb_numbers.specs.Numbers.{IsBelow};
ghost use Rattle.zb_journal.specs.Spelling.{fields_text, piece_text, size_of, IsPiece, IsFields};
ghost use Rattle.zb_journal.specs.Journal.{Begins, EntryStands, HasEntries, HasBad, Says, IsBadAt};
ghost use Rattle.zb_journal.specs.Reading.{FindsHead, NoneStands};
ghost use Rattle.zb_journal.specs.Faults.{is_stopped};
ghost use Rattle.zb_journal.specs.declared.faults.JournalFault.TheVariants as fault;

use crate::faults::JournalFault;
use crate::fields::{Fields, entry_of, pieces};
use crate::journal::{Journal, ROOM, START};
use std::alloc::Global;
use zb_entries::Entry;
use zb_numbers::{split_u16, split_u32, split_u64};
use zb_outside::Bay;
use zb_types::{ItemList, Mem, NoMemory, Piece, PieceList};

/// Entries, in the order in which they were added.
pub type EntryList = ItemList<Entry>;

// The numbers behind a gate, the entry's own number, and what stands behind them.
fn split_fields(bytes: &[u8]) -> (Fields, u64, &[u8])
    requires { 31 ≤ length bytes.now }
    ensures whole { fields_text result.0 result.1 ++ result.2.now ≡ bytes.now }
    ensures length { length result.2.now + 31 ≡ length bytes.now }
    ensures fields { IsFields result.0 }
    ensures number { IsBelow 8 result.1 }
{
    let (kind, rest) = bytes.split_at(1);
    let kind = kind[0];
    let (count, rest) = split_u16(rest);
    let (who, rest) = split_u32(rest);
    let (what, rest) = split_u64(rest);
    let (generation, rest) = split_u64(rest);
    let (number, rest) = split_u64(rest);
    let fields = Fields {
        kind,
        count,
        who,
        what,
        generation,
    };
    (fields, number, rest)
}

// The numbers of what stands at this place, its own number and the bytes behind, where a gate is open there.
fn head_at(bytes: &[u8], place: u32) -> Option<(Fields, u64, &[u8])>
    requires size { length bytes.now ≡ 65536 }
    requires place { place ≤ 65536 }
    ensures { FindsHead (slice_index bytes.now) place (option_map (λ found. (found.0, (found.1, found.2.now))) result) }
{
    let (_, rest) = bytes.split_at(place as usize);
    if rest.len() < 32 || rest[0] != 1 {
        return None;
    }
    let (_, rest) = rest.split_at(1);
    Some(split_fields(rest))
}

// Whether something with the next number begins where the journal goes on.
fn begins(bytes: &[u8], journal: &Journal) -> bool
    requires size { length bytes.now ≡ 65536 }
    requires place { journal.now.place ≤ 65536 }
    requires number { journal.now.number < 2 ^ 64 }
    ensures { IsTrue result ↔ Begins (slice_index bytes.now) journal.now.place journal.now.number }
{
    let Some((_, number, _)) = head_at(bytes, journal.place) else {
        return false;
    };
    number == journal.number
}

fn read_piece(bytes: &[u8]) -> (Piece, &[u8])
    requires { 16 ≤ length bytes.now }
    ensures whole { piece_text result.0 ++ result.1.now ≡ bytes.now }
    ensures length { length result.1.now + 16 ≡ length bytes.now }
    ensures piece { IsPiece result.0 }
{
    let (stripe, rest) = split_u64(bytes);
    let (offset, rest) = split_u32(rest);
    let (len, rest) = split_u32(rest);
    let piece = Piece {
        stripe,
        offset,
        len,
    };
    (piece, rest)
}

// So many pieces, which stand at the front of these bytes.
fn read_pieces(alloc: Global, count: u16, bytes: &[u8]) -> Mem<PieceList>
    requires { 16 * count ≤ length bytes.now }
    ensures count { IfOk result (λ pieces. length pieces ≡ count) }
    ensures front { IfOk result (λ pieces. flat_map piece_text pieces ++ drop (16 * count) bytes.now ≡ bytes.now) }
    ensures each { IfOk result (λ pieces. AllByRecursion IsPiece pieces) }
{
    let mut pieces = PieceList::new(alloc)?;
    let mut rest = bytes;
    for _ in 0..count {
        let (piece, others) = read_piece(rest);
        pieces.push(piece)?;
        rest = others;
    }
    Ok(pieces)
}

// The entry where the journal goes on, at which something with the next number begins.
fn entry_at(alloc: Global, bytes: &[u8], journal: &Journal) -> Result<Entry, JournalFault>
    requires size { length bytes.now ≡ 65536 }
    requires place { journal.now.place ≤ 65536 }
    requires number { journal.now.number < 2 ^ 64 }
    requires begins { Begins (slice_index bytes.now) journal.now.place journal.now.number }
    ensures found { IfOk result (λ entry. EntryStands (slice_index bytes.now) journal.now.place journal.now.number entry) }
    ensures place { (place : ℕ) → IsErrOf result (fault.Bad place) → place ≡ journal.now.place }
    ensures bad { (place : ℕ) → IsErrOf result (fault.Bad place) → NoneStands (slice_index bytes.now) journal.now.place journal.now.number }
    ensures full { (place : ℕ) → IsErrOf result (fault.Full place) → ⊥ }
    ensures worn { IsErrOf result fault.Worn → ⊥ }
    ensures stopped { IsErrOf result fault.Stopped → ⊥ }
{
    let bad = JournalFault::Bad {
        place: journal.place,
    };
    let Some((fields, _, behind)) = head_at(bytes, journal.place) else {
        return Err(bad);
    };
    if behind.len() <= 16 * usize::from(fields.count) {
        return Err(bad);
    }
    let pieces = read_pieces(alloc, fields.count, behind)?;
    let Some(entry) = entry_of(&fields, pieces) else {
        return Err(bad);
    };
    Ok(entry)
}

// The entries in the journal's bytes, from the number `first` on.
fn read_all(alloc: Global, bytes: &[u8], first: u64) -> Result<(Journal, EntryList), JournalFault>
    requires size { length bytes.now ≡ 65536 }
    requires first { first ≤ 2 ^ 48 }
    ensures has { IfOk result (λ found. HasEntries (slice_index bytes.now) first found.1 found.0.place) }
    ensures number { IfOk result (λ found. found.0.number ≡ first + length found.1) }
    ensures bad { (place : ℕ) → IsErrOf result (fault.Bad place) → HasBad (slice_index bytes.now) first place }
    ensures full { (place : ℕ) → IsErrOf result (fault.Full place) → ⊥ }
    ensures worn { IsErrOf result fault.Worn → ⊥ }
    ensures stopped { IsErrOf result fault.Stopped → ⊥ }
{
    let mut entries = EntryList::new(alloc)?;
    let mut journal = Journal {
        place: 0,
        number: first,
    };
    while begins(bytes, &journal) {
        let entry = entry_at(alloc, bytes, &journal)?;
        journal.place += 32 + 16 * pieces(&entry).len() as u32;
        journal.number += 1;
        entries.push(entry)?;
    }
    Ok((journal, entries))
}

// So many bytes of platter 0, from a place on.
fn read_bytes<B: Bay>(
    alloc: Global,
    bay: &mut B,
    place: u64,
    len: usize,
) -> Result<Vec<u8>, JournalFault>
    requires range { place + len ≤ 2 ^ 63 }
    ensures told { IsTrue B.tells → Held 0 (B.meaning bay.old) (B.meaning bay.new) }
    ensures read { IsTrue B.tells → IfOk result (λ bytes. Reads ((B.meaning bay.old).now.seen 0) place bytes.items) }
    ensures size { IfOk result (λ bytes. length bytes.items ≡ len) }
    ensures bad { (place : ℕ) → IsErrOf result (fault.Bad place) → ⊥ }
    ensures full { (place : ℕ) → IsErrOf result (fault.Full place) → ⊥ }
    ensures worn { IsErrOf result fault.Worn → ⊥ }
    ensures touches { Touches B.counts B.follows 0 0 (is_stopped result) bay.old bay.new }
{
    let mut bytes = vec![in alloc; 0; len]?;
    bay.read_at(0, place, bytes.as_mut_slice())?;
    Ok(bytes)
}

/// The entries of the journal on platter 0 from the number `first` on, which is at most 2^48, and where it goes on. It
/// takes any bytes, and its time grows with the entries alone. With the journal that it gives, `append` goes on where
/// they end.
///
/// `Bad` comes exactly where something with the next number begins at that place and is no entry, and `Stopped` only
/// where a call of the platter failed.
pub fn entries<B: Bay>(
    alloc: Global,
    bay: &mut B,
    first: u64,
) -> Result<(Journal, EntryList), JournalFault>
    requires first { first ≤ 2 ^ 48 }
    ensures told { IsTrue B.tells → Held 0 (B.meaning bay.old) (B.meaning bay.new) }
    ensures says { IsTrue B.tells → IfOk result (λ found. Says ((B.meaning bay.old).now.seen 0) first found.1 found.0.place) }
    ensures number { IfOk result (λ found. found.0.number ≡ first + length found.1) }
    ensures bad { IsTrue B.tells → (place : ℕ) → IsErrOf result (fault.Bad place) → IsBadAt ((B.meaning bay.old).now.seen 0) first place }
    ensures full { (place : ℕ) → IsErrOf result (fault.Full place) → ⊥ }
    ensures worn { IsErrOf result fault.Worn → ⊥ }
    ensures touches { Touches B.counts B.follows 0 0 (is_stopped result) bay.old bay.new }
{
    let bytes = read_bytes(alloc, bay, START, ROOM as usize)?;
    read_all(alloc, bytes.as_slice(), first)
}
