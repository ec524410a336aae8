ghost use Rattle.std.specs.Prelude.{◌≡◌, ℕ, List, ◌+◌, ◌-◌, ◌*◌, ◌<◌, ◌≤◌, ◌++◌, ◌↔◌, IfOk, OnOk, IsErrOf, All, length, map, []};
ghost use Rattle.std.specs.List.{AllZip, concat, sum};
ghost use Rattle.zb_stripe.specs.declared.flush.Flush.{Flush};
ghost use Rattle.zb_stripe.specs.Writing.{StripesRise};
ghost use Rattle.zb_stripe.specs.Fresh.{IsFreshFlush, HasRoom};
ghost use Rattle.zb_log.specs.declared.placed.LogFault.TheVariants.{Worn};
ghost use Rattle.zb_log.specs.Places.{place, range_of, IsUpTo, BeginsNext, InOrder};
ghost use Rattle.zb_log.specs.Placing.{last_stripe, AreBlocks, OneAStripe};
ghost use Rattle.zb_log.specs.Sealing.{read_at, IsPartOf, StandEach, GoesNext, LiesAhead};
ghost use Rattle.zb_log.specs.Logs.{SeenLog, AreGiven, ForGiven, IsSound, IsPlaced, LiesInFew, IsSealed, IsPtrIn, Gives, flush_of, laid_next, behind_meta, last_of, bytes_with, end_with, gone_on, renewed};

use crate::laying::lay;
use crate::placed::{LogFault, Placed};
use crate::places::{Place, goes_above};
use crate::sealing::{fresh_parts, joined, last_part};
use std::alloc::Global;
use std::marker::Model;
use zb_stripe::{FreshFlush, FreshList};
use zb_types::{ByteList, Geometry, LogId, Mem};

/// The log of a client or of the cleaner. Contracts see the sizes, the place that the log goes on at, and the parity of
/// its stripe up to there: what was given of the stripe isn't kept. A batch is placed and sealed before the log goes on
/// behind it: until then the log is as it was, so that a batch is given up where memory runs out.
#[derive(Drop)]
pub struct LogBuf {
    log: LogId,
    geo: Geometry,
    next: Place,
    parity: Vec<u8>,
}

impl Model for LogBuf {
    ghost use Rattle.std.specs.Prelude.{◌-◌, ◌*◌};
    ghost use Rattle.zb_log.specs.Logs.{SeenLog, IsSound};

    ghost Value = { SeenLog };

    ghost view = { λ a. record {
      log = a.log;
      servers = a.geo.servers;
      fragment = a.geo.fragment;
      room = (a.geo.servers - 1) * a.geo.fragment;
      block = a.geo.block;
      next = a.next;
      parity = a.parity.items;
    } };

    ghost invariant = { λ a. IsSound (record {
      log = a.log;
      servers = a.geo.servers;
      fragment = a.geo.fragment;
      room = (a.geo.servers - 1) * a.geo.fragment;
      block = a.geo.block;
      next = a.next;
      parity = a.parity.items;
    }) };
}

impl LogBuf {
    /// A log that begins at stripe 0.
    pub fn new(alloc: Global, geo: &Geometry, log: LogId) -> Mem<LogBuf>
        ensures new { IfOk result (λ made. made ≡ record {
          log = log;
          servers = geo.now.servers;
          fragment = geo.now.fragment;
          room = (geo.now.servers - 1) * geo.now.fragment;
          block = geo.now.block;
          next = place 0 0;
          parity = [];
        }) }

        // Nothing was given.
        ensures given { IfOk result (λ made. AreGiven made []) }
    {
        Ok(LogBuf {
            log,
            geo: *geo,
            next: Place {
                stripe: 0,
                offset: 0,
            },
            parity: Vec::new(alloc),
        })
    }

    /// Places a batch next in the log, by the lengths of its meta part and its blocks, in bytes. The meta part goes
    /// over the ends of stripes. Each block goes behind it, and to the next stripe where it doesn't fit into the rest.
    /// `Worn` comes exactly where the place behind the batch would lie in a stripe above the last, 2 ^ 48.
    pub fn place(&self, alloc: Global, meta: u32, blocks: &[u32]) -> Result<Placed, LogFault>
        requires { AreBlocks self.now.block blocks.now }

        // It may be sealed.
        ensures exact { IfOk result (IsPlaced self.now meta blocks.now) }

        // The pieces lie behind the place that the log goes on at, each behind the one before.
        ensures order { IfOk result (λ placed. InOrder self.now.room self.now.next placed.pieces placed.next) }
        ensures one_a_stripe { IfOk result (λ placed. OneAStripe placed.pieces) }

        // A batch takes few stripes and pieces for its length.
        ensures few { IfOk result (λ placed. LiesInFew self.now (meta + sum blocks.now) placed) }

        // No byte is left out at the start of a stripe, nor where the log goes on.
        ensures begin { IfOk result (λ placed. All (BeginsNext self.now.next) placed.pieces) }

        // The blocks lie behind the meta part, each behind the one before, and none crosses a stripe.
        ensures blocks { IfOk result (λ placed. InOrder self.now.room
            (behind_meta self.now meta) (map range_of placed.ptrs) placed.next) }
        ensures ptrs { IfOk result (λ placed. AllZip (IsPtrIn self.now.log placed.pieces) placed.ptrs blocks.now) }
        ensures worn { IsErrOf result Worn ↔ (last_stripe < (laid_next self.now meta blocks.now).next.stripe) }
    {
        let room = (self.geo.servers - 1) * self.geo.fragment;
        if goes_above(room, self.next, meta, blocks) {
            return Err(LogFault::Worn);
        }
        Ok(lay(alloc, self.log, room, self.next, meta, blocks)?)
    }

    /// Gives what is new of the flush of a batch that was placed next: for each stripe of it the new bytes, where they
    /// begin, and the parity of all bytes of the stripe so far. It takes memory for the batch, and for one parity a stripe.
    pub fn seal(
        &self,
        alloc: Global,
        placed: &Placed,
        meta: &ByteList,
        blocks: &[ByteList],
    ) -> Mem<FreshFlush>
        requires { IsPlaced self.now (length meta.now) (map length blocks.now) placed.now }

        // The log may go on behind it.
        ensures sealed { IfOk result (IsSealed self.now placed.now) }
        ensures log { IfOk result (λ fresh. fresh.log ≡ self.now.log) }

        // It is new of the flush that has the meta part and the blocks behind the bytes that were given.
        ensures fresh { IfOk result (λ fresh. ForGiven self.now (λ given. IsFreshFlush self.now.servers self.now.fragment
            (flush_of self.now given placed.now (meta.now ++ concat blocks.now)) fresh)) }

        // A write plan may be made of it, and its stripes are the one at work and later ones.
        ensures room { IfOk result (λ fresh. All (HasRoom self.now.room) fresh.parts) }
        ensures ahead { IfOk result (λ fresh. All (LiesAhead self.now.next.stripe) fresh.parts) }

        // Read at the pieces, one behind the other, the parts give the meta part and the blocks.
        ensures whole { OnOk result (ForGiven self.now (λ given.
            let flush = flush_of self.now given placed.now (meta.now ++ concat blocks.now)
            in read_at placed.now.pieces flush.parts ≡ meta.now ++ concat blocks.now)) }

        // There is a part for each piece, which ends where the piece does.
        ensures pieces { OnOk result (ForGiven self.now (λ given.
            let flush = flush_of self.now given placed.now (meta.now ++ concat blocks.now)
            in AllZip IsPartOf placed.now.pieces flush.parts)) }

        // Each block stands at its address.
        ensures blocks { OnOk result (ForGiven self.now (λ given.
            let flush = flush_of self.now given placed.now (meta.now ++ concat blocks.now)
            in StandEach flush.parts placed.now.ptrs blocks.now)) }

        // Each part has new bytes behind those that were given of its stripe.
        ensures next { OnOk result (ForGiven self.now (λ given.
            let flush = flush_of self.now given placed.now (meta.now ++ concat blocks.now)
            in All (GoesNext self.now.room self.now.next.stripe given) flush.parts)) }

        // Each part is of a later stripe than the one before.
        ensures rise { OnOk result (ForGiven self.now (λ given.
            let flush = flush_of self.now given placed.now (meta.now ++ concat blocks.now)
            in StripesRise flush.parts)) }

        // The log goes on where the last part ends.
        ensures end { OnOk result (ForGiven self.now (λ given.
            let flush = flush_of self.now given placed.now (meta.now ++ concat blocks.now)
            in end_with self.now.next (last_of flush.parts) ≡ placed.now.next)) }
    {
        let new = joined(alloc, meta, blocks)?;
        let parts = fresh_parts(
            alloc,
            &self.geo,
            self.next.stripe,
            &self.parity,
            placed.pieces.slice(),
            &new,
        )?;
        Ok(FreshFlush {
            log: self.log,
            parts: FreshList::of(parts),
        })
    }

    /// Goes on behind a batch that was placed next and sealed: its addresses are given. It is for a flush that reached
    /// its end, since what is given can't be given back.
    pub fn go_on(&mut self, placed: &Placed, fresh: FreshFlush)
        requires { IsSealed self.old placed.now fresh }
        ensures new { self.new ≡ gone_on self.old placed.now.next fresh.parts }

        // The bytes of the last part of the flush are those that are given of its stripe by now.
        ensures given { (given : List ℕ) (flush : Flush) → AreGiven self.old given
            → IsFreshFlush self.old.servers self.old.fragment flush fresh
            → end_with self.old.next (last_of flush.parts) ≡ placed.now.next
            → AreGiven self.new (bytes_with given (last_of flush.parts)) }

        // No address is given twice.
        ensures gives { Gives self.old placed.now.pieces self.new }
    {
        let Some(last) = last_part(fresh) else {
            self.next = placed.next;
            return;
        };
        self.parity = last.parity.into_items();
        self.next = placed.next;
    }

    /// Goes on at the start of the stripe behind `last`, the last stripe that a request was delivered for. It isn't
    /// below the stripe of the last flush that reached its end, where the log goes on. The addresses above it of a
    /// batch that was placed, and didn't reach its end, were not given, and may be placed again.
    pub fn next_stripe(&mut self, last: u64)
        requires lasting { last ≤ last_stripe }

        // No address that was given lies behind.
        requires behind { IsUpTo self.old.next (place (last + 1) 0) }
        ensures new { self.new ≡ renewed self.old last }

        // Nothing was given of that stripe.
        ensures given { AreGiven self.new [] }
    {
        self.next = Place {
            stripe: last + 1,
            offset: 0,
        };
        self.parity.clear();
    }
}
