ghost use Rattle.std.specs.Prelude.{◌≡◌, ◌+◌, ◌<◌, ◌≤◌, [], length, slice_index_or, IsTrue, OnOk};
ghost use Rattle.std.specs.List.{AllByRecursion};
ghost use Rattle.zb_tables.specs.Tables.{held_at, is_of};
ghost use Rattle.zb_types.specs.declared.tables.HeldUse.{HeldUse};
ghost use Rattle.zb_tables.specs.Fold.{held_with, held_with_all, is_before, retired};
ghost use Rattle.zb_log_tables.specs.HeldStripes.{EndFits, IsPlace, holds_any, key_of};

use std::alloc::Global;
use std::marker::Model;
use zb_types::{HeldUse, LogId, Mem, NoMemory, Piece};

// Whether one stripe stands before another.
fn is_before(a: &HeldUse, log: LogId, stripe: u64) -> bool
    ensures { result ≡ is_before a.now (key_of log stripe) }
{
    a.log.0 < log.0 || (a.log.0 == log.0 && a.stripe < stripe)
}

/// Held stripes by log and stripe, with room for more.
#[derive(Drop)]
pub struct HeldTable {
    pub(crate) stripes: Vec<HeldUse>,
}

impl Model for HeldTable {
    ghost use Rattle.zb_log_tables.specs.HeldStripes.{SeenHeld, IsInOrder, room_of};

    ghost Value = { SeenHeld };

    ghost view = { λ a. record { stripes = a.stripes.items; room = room_of a.stripes } };

    ghost invariant = { λ a. IsInOrder a.stripes.items };
}

impl HeldTable {
    /// No stripes.
    pub fn new(alloc: Global) -> HeldTable
        ensures { result.stripes ≡ [] }
    {
        HeldTable {
            stripes: Vec::new(alloc),
        }
    }

    // Where a stripe is, or where it would go.
    fn place(&self, log: LogId, stripe: u64) -> usize
        ensures bound { result ≤ length self.now.stripes }
        ensures place { IsPlace self.now.stripes log stripe result }
    {
        self.stripes
            .partition_point(|held| is_before(held, log, stripe))
    }

    // Whether a stripe is at this place.
    fn is_at(&self, i: usize, log: LogId, stripe: u64) -> bool
        ensures there { IsTrue result → i < length self.now.stripes }
        ensures is { (d : HeldUse) → i < length self.now.stripes → result ≡ is_of log stripe (slice_index_or self.now.stripes i d) }
    {
        if i >= self.stripes.len() {
            return false;
        }
        let h = &self.stripes[i];
        h.log.0 == log.0 && h.stripe == stripe
    }

    /// A held stripe. None where it isn't held.
    pub fn find(&self, log: LogId, stripe: u64) -> Option<HeldUse>
        ensures { result ≡ held_at log stripe self.now.stripes }
    {
        let _ = &self.stripes;
        let i = self.place(log, stripe);
        if !self.is_at(i, log, stripe) {
            return None;
        }
        Some(self.stripes[i])
    }

    /// Whether a log has a held stripe.
    pub fn holds_any(&self, log: u32) -> bool
        ensures { result ≡ holds_any log self.now.stripes }
    {
        let i = self.place(LogId(log), 0);
        match self.stripes.get(i) {
            Some(h) => h.log.0 == log,
            None => false,
        }
    }

    /// Makes room for so many more stripes.
    pub fn reserve(&mut self, count: usize) -> Mem<()>
        ensures same { self.new.stripes ≡ self.old.stripes }
        ensures ok { OnOk result (count ≤ self.new.room) }
        ensures room { self.old.room ≤ self.new.room }
    {
        self.stripes.reserve(count)?;
        Ok(())
    }

    /// Raises a stripe's committed end, in bytes, to that of a piece, without memory. A stripe that wasn't held is from now
    /// on, born by entry `born`; there has to be room for it.
    pub fn raise(&mut self, log: LogId, born: u64, piece: &Piece)
        requires room { 1 ≤ self.old.room }
        requires end { EndFits piece.now }
        ensures stripes { self.new.stripes ≡ held_with log born piece.now self.old.stripes }
        ensures room { self.old.room ≤ self.new.room + 1 }
    {
        let end = piece.offset + piece.len;
        let i = self.place(log, piece.stripe);
        if self.is_at(i, log, piece.stripe) {
            let held = self.stripes[i];
            self.stripes[i] = HeldUse {
                log,
                stripe: piece.stripe,
                end: held.end.max(end),
                born: held.born,
            };
            return;
        }
        let held = HeldUse {
            log,
            stripe: piece.stripe,
            end,
            born,
        };
        let _ = self.stripes.insert(i, held);
    }

    /// Raises the committed ends of a batch's stripes to those of its pieces, without memory.
    pub fn raise_all(&mut self, log: LogId, born: u64, pieces: &[Piece])
        requires room { length pieces.now ≤ self.old.room }
        requires ends { AllByRecursion EndFits pieces.now }
        ensures stripes { self.new.stripes ≡ held_with_all log born pieces.now self.old.stripes }
    {
        let mut rest = pieces;
        while let Some((piece, others)) = rest.split_first() {
            self.raise(log, born, piece);
            rest = others;
        }
    }

    /// A stripe isn't held any longer, if it was.
    pub fn retire(&mut self, log: LogId, stripe: u64)
        ensures stripes { self.new.stripes ≡ retired log stripe self.old.stripes }
        ensures room { self.old.room ≤ self.new.room }
    {
        let _ = &self.stripes;
        let i = self.place(log, stripe);
        if self.is_at(i, log, stripe) {
            self.stripes.remove(i);
        }
    }

    /// The stripes, by log and stripe.
    pub fn slice(&self) -> &[HeldUse]
        ensures { result.now ≡ self.now.stripes }
    {
        &self.stripes
    }
}
