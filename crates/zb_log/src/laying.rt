ghost use Rattle.std.specs.Prelude.{◌≡◌, ◌+◌, ◌-◌, ◌<◌, ◌≤◌, All, OnOk, IfOk, fold, []};
ghost use Rattle.zb_log.specs.Places.{place, behind, ptr_at};
ghost use Rattle.zb_log.specs.Placing.{
  Laid,
  begun,
  pieces_of,
  turned,
  ready,
  added,
  with_meta,
  with_block,
  with_batch,
  last_stripe,
  AreBlocks,
};

use crate::placed::{Placed, PtrList};
use crate::places::Place;
use std::alloc::Global;
use std::marker::Model;
use zb_types::{LogId, Mem, Piece, PieceList, Ptr};

/// A batch while it is placed. Contracts see what was placed so far.
#[derive(Drop)]
struct Laying {
    log: LogId,
    room: u32,
    left: Vec<Piece>,
    start: u32,
    next: Place,
    ptrs: Vec<Ptr>,
}

impl Model for Laying {
    ghost use Rattle.std.specs.Prelude.{◌≤◌, ◌<◌};
    ghost use Rattle.zb_log.specs.Placing.{Laid, last_stripe};

    ghost Value = { Laid };

    ghost view = { λ a. record {
      log = a.log;
      room = a.room;
      left = a.left.items;
      start = a.start;
      next = a.next;
      ptrs = a.ptrs.items;
    } };

    ghost invariant = { λ a. (a.start ≤ a.next.offset) × (a.next.offset ≤ a.room) × (0 < a.room)
        × (a.room ≤ 983040) × (a.next.stripe ≤ last_stripe) };
}

impl Laying {
    /// Nothing is placed yet.
    fn new(alloc: Global, log: LogId, room: u32, from: Place) -> Mem<Laying>
        requires within { from.offset ≤ room }
        requires some { 0 < room }
        requires small { room ≤ 983040 }
        requires lasting { from.stripe ≤ last_stripe }
        ensures { IfOk result (λ laying. laying ≡ begun log room from) }
    {
        Ok(Laying {
            log,
            room,
            left: Vec::new(alloc),
            start: from.offset,
            next: from,
            ptrs: Vec::new(alloc),
        })
    }

    /// Ends the piece in the stripe at hand.
    fn finish(&mut self) -> Mem<()>
        ensures { OnOk result (self.new
            ≡ record self.old { left = pieces_of self.old; start = self.old.next.offset }) }
    {
        if self.start < self.next.offset {
            self.left.push(Piece {
                stripe: self.next.stripe,
                offset: self.start,
                len: self.next.offset - self.start,
            })?;
            self.start = self.next.offset;
        }
        Ok(())
    }

    /// Leaves the stripe at hand.
    fn turn(&mut self) -> Mem<()>
        requires { self.old.next.stripe < last_stripe }
        ensures { OnOk result (self.new ≡ turned self.old) }
    {
        self.finish()?;
        self.start = 0;
        self.next = Place {
            stripe: self.next.stripe + 1,
            offset: 0,
        };
        Ok(())
    }

    /// Leaves the stripe at hand where `len` bytes don't fit into its rest.
    fn make_ready(&mut self, len: u32) -> Mem<()>
        requires fits { len ≤ self.old.room }
        requires lasting { (ready self.old len).next.stripe ≤ last_stripe }
        ensures ok { OnOk result (self.new ≡ ready self.old len) }
        ensures fits { OnOk result (self.new.next.offset + len ≤ self.new.room) }
    {
        if self.room - self.next.offset < len {
            self.turn()?;
        }
        Ok(())
    }

    /// Places a block.
    fn add_block(&mut self, len: u32) -> Mem<()>
        requires fits { len ≤ self.old.room }
        requires lasting { (with_block self.old len).next.stripe ≤ last_stripe }
        ensures { OnOk result (self.new ≡ with_block self.old len) }
    {
        self.make_ready(len)?;
        self.ptrs.push(Ptr {
            log: self.log,
            stripe: self.next.stripe,
            offset: self.next.offset,
            len,
        })?;
        self.next.offset += len;
        Ok(())
    }

    /// Places as many of `len` bytes of a meta part as one stripe has room for, and answers how many are left.
    fn fill(&mut self, len: u32) -> Mem<u32>
        requires some { 0 < len }
        requires lasting { (with_meta self.old len).next.stripe ≤ last_stripe }
        ensures ok { IfOk result (λ left. with_meta self.new left ≡ with_meta self.old len) }
        ensures fewer { IfOk result (λ left. left < len) }
    {
        // Names a field, so that what holds of the fields is known here.
        let _ = &self.room;
        self.make_ready(1)?;
        let n = len.min(self.room - self.next.offset);
        self.next.offset += n;
        Ok(len - n)
    }

    /// Places a meta part of `len` bytes.
    fn add_meta(&mut self, len: u32) -> Mem<()>
        requires { (with_meta self.old len).next.stripe ≤ last_stripe }
        ensures { OnOk result (self.new ≡ with_meta self.old len) }
    {
        let mut left = len;
        while left > 0 {
            left = self.fill(left)?;
        }
        Ok(())
    }

    /// Places blocks.
    fn add_blocks(&mut self, blocks: &[u32]) -> Mem<()>
        requires fit { AreBlocks self.old.room blocks.now }
        requires lasting { (fold with_block self.old blocks.now).next.stripe ≤ last_stripe }
        ensures { OnOk result (self.new ≡ fold with_block self.old blocks.now) }
    {
        for len in blocks {
            self.add_block(*len)?;
        }
        Ok(())
    }

    /// What was placed, and the place behind it.
    fn into_placed(self) -> Mem<Placed>
        ensures pieces { IfOk result (λ placed. placed.pieces ≡ pieces_of self) }
        ensures ptrs { IfOk result (λ placed. placed.ptrs ≡ self.ptrs) }
        ensures next { IfOk result (λ placed. placed.next ≡ self.next) }
    {
        let mut all = self;
        all.finish()?;
        Ok(Placed {
            pieces: PieceList::of(all.left),
            ptrs: PtrList::of(all.ptrs),
            next: all.next,
        })
    }
}

/// Places a batch that ends in a stripe that a log may have.
pub(crate) fn lay(
    alloc: Global,
    log: LogId,
    room: u32,
    from: Place,
    meta: u32,
    blocks: &[u32],
) -> Mem<Placed>
    requires fit { AreBlocks room blocks.now }
    requires some { 0 < room }
    requires small { room ≤ 983040 }
    requires within { from.offset ≤ room }
    requires lasting { (with_batch (begun log room from) meta blocks.now).next.stripe ≤ last_stripe }
    ensures pieces { IfOk result
        (λ placed. placed.pieces ≡ pieces_of (with_batch (begun log room from) meta blocks.now)) }
    ensures ptrs { IfOk result
        (λ placed. placed.ptrs ≡ (with_batch (begun log room from) meta blocks.now).ptrs) }
    ensures next { IfOk result
        (λ placed. placed.next ≡ (with_batch (begun log room from) meta blocks.now).next) }
{
    let mut laying = Laying::new(alloc, log, room, from)?;
    laying.add_meta(meta)?;
    laying.add_blocks(blocks)?;
    laying.into_placed()
}
