ghost use Rattle.std.specs.Prelude.{◌≡◌, ◌≤◌, ◌<◌, ◌+◌, ◌^◌, ℕ, List, IsTrue, IsErrOf, OnOk, OnErr, Err};
ghost use Rattle.zb_entries.specs.declared.entry.Entry.{Entry};
ghost use Rattle.zb_outside.specs.Counts.{Touches, HasWritten, raised_by};
ghost use Rattle.zb_outside.specs.Runs.{SparesOthers};
ghost use Rattle.zb_journal.specs.Spelling.{size_of};
ghost use Rattle.zb_journal.specs.Putting.{writes_at};
ghost use Rattle.zb_journal.specs.Append.{AppendReady, AppendTold};
ghost use Rattle.zb_journal.specs.Faults.{is_stopped};
ghost use Rattle.zb_journal.specs.declared.faults.JournalFault.TheVariants as fault;

use crate::faults::JournalFault;
use crate::fields::pieces;
use crate::gate::put;
use crate::spelling::spelled;
use std::alloc::Global;
use zb_entries::Entry;
use zb_outside::Bay;

/// Where the journal begins on platter 0.
pub(crate) const START: u64 = 4_096;

/// How many bytes it has.
pub(crate) const ROOM: u64 = 65_536;

// The last number of an entry.
const LAST: u64 = 281_474_976_710_656;

/// Where the next entry goes, from the journal's start on, and its number.
#[derive(Clone, Copy, Debug, PartialEq, Eq)]
pub struct Journal {
    /// In bytes, 0 to 65,535.
    pub place: u32,
    /// From 1; at 2^48 no entry more is taken.
    pub number: u64,
}

impl Journal {
    /// Begins anew at place 0, with the same next number, after a checkpoint that makes it the first.
    pub fn cut(&mut self)
        ensures { self.new ≡ record self.old { place = 0 } }
    {
        self.place = 0;
    }

    /// Adds an entry. Where the journal on platter 0 ends at this place and number, with no write of it unsynced, and lies
    /// within the platter, it has at each moment the entries that it had, or these and the new one, and every byte
    /// outside stays. After Ok it has the new one, with nothing unsynced. It takes two writes, or three where an entry of
    /// before a cut stands open at this place. The other platters are as before at each moment, whatever this one holds.
    ///
    /// `Full` comes exactly where the entry and a byte behind it don't fit, `Worn` exactly where they do and the number
    /// has its last value, and `Stopped` only where a call of the platter failed. Every other refusal leaves the platter as
    /// it was, and all leave the journal as it was.
    pub fn append<B: Bay>(
        &mut self,
        alloc: Global,
        bay: &mut B,
        entry: &Entry,
    ) -> Result<(), JournalFault>
        ensures told { IsTrue B.tells → (first : ℕ) → (entries : List Entry) → AppendReady self.old first entries (B.meaning bay.old).now → AppendTold self.old first entries entry.now result (B.meaning bay.old) (B.meaning bay.new) }
        ensures ok { OnOk result (self.new ≡ record { place = self.old.place + size_of entry.now; number = self.old.number + 1 }) }
        ensures err { OnErr result (self.new ≡ self.old) }
        ensures full { 65536 < self.old.place + size_of entry.now + 1 → result ≡ Err (fault.Full self.old.place) }
        ensures fits { (place : ℕ) → IsErrOf result (fault.Full place) → 65536 < self.old.place + size_of entry.now + 1 }
        ensures spent { self.old.place + size_of entry.now + 1 ≤ 65536 → 2 ^ 48 ≤ self.old.number → result ≡ Err fault.Worn }
        ensures worn { IsErrOf result fault.Worn → 2 ^ 48 ≤ self.old.number }
        ensures bad { (place : ℕ) → IsErrOf result (fault.Bad place) → ⊥ }
        ensures unwritten { (IsErrOf result fault.Stopped → ⊥) → OnErr result (bay.new ≡ bay.old) }
        ensures others { IsTrue B.tells → SparesOthers 0 (B.meaning bay.old) (B.meaning bay.new) }
        ensures touches { Touches B.counts B.follows 0 3 (is_stopped result) bay.old bay.new }
        ensures written { IsTrue B.tells → OnOk result (HasWritten 0 (writes_at ((B.meaning bay.old).now.seen 0) (4096 + self.old.place)) (B.counts bay.old) (B.counts bay.new)) }
        ensures least { OnOk result (raised_by 2 ((B.counts bay.old).writes 0) ≤ (B.counts bay.new).writes 0) }
    {
        let count = pieces(entry).len();
        if count > 4_093 || u64::from(self.place) + 33 + 16 * count as u64 > ROOM {
            return Err(JournalFault::Full { place: self.place });
        }
        if self.number >= LAST {
            return Err(JournalFault::Worn);
        }
        let text = spelled(alloc, entry, self.number)?;
        put(bay, START + u64::from(self.place), text.slice())?;
        self.place += 32 + 16 * count as u32;
        self.number += 1;
        Ok(())
    }
}
