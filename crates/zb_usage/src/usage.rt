ghost use Rattle.std.specs.Prelude.{◌≡◌, ◌%◌, ◌^◌, ℕ, IfOk, OnErr, OnOk};
ghost use Rattle.zb_types.specs.declared.ids.LogId.{LogId};
ghost use Rattle.zb_tables.specs.Tables.{held_at};
ghost use Rattle.zb_usage.specs.Noting.{Counts, come as come_by, gone as gone_by};
ghost use Rattle.zb_usage.specs.Seen.{SameUse, counted, if_held};
ghost use Rattle.zb_usage.specs.Uses.{bytes_in, candidates_of, closed as closed_in, named_bytes, with_use};

use crate::closing::closed;
use crate::counting::{CountMap, add, count_at, count_live, counts_of_held, room_for, take};
use crate::noting::{come, gone};
use crate::stripe_use::StripeUse;
use std::alloc::Global;
use std::marker::Model;
use zb_delta::{Body, Delta};
use zb_types::{HeldUse, Mem, Status};

/// How many bytes of each stripe pointers name, by log and stripe, and the held stripes that no live log goes on in.
/// Counts have 32 bits and wrap, since between the note of a change and that of its reject one may be below 0. A count is
/// found in steps that grow as the logarithm of how many stripes there are.
#[derive(Drop)]
pub struct Usage {
    stripes: Vec<HeldUse>,
    counts: CountMap,
}

impl Model for Usage {
    ghost use Rattle.zb_usage.specs.Seen.{SeenUsage};

    ghost Value = { SeenUsage };

    ghost view = { λ a. record { stripes = a.stripes.items; counts = a.counts.entries } };
}

impl Usage {
    /// The use of each stripe, counted from the pointers into the held stripes of a status.
    pub fn scratch(alloc: Global, status: &Status, live: &[Body]) -> Mem<Usage>
        ensures stripes { IfOk result (λ usage. usage.stripes ≡ closed_in status.now.logs status.now.held) }
        ensures counts { IfOk result (λ usage. (log : LogId) (stripe : ℕ) → counted usage log stripe ≡ named_bytes log stripe live.now % 2 ^ 32) }
    {
        let counts = count_live(alloc, live)?;
        Ok(Usage {
            stripes: closed(alloc, status)?,
            counts,
        })
    }

    /// Takes a note of the file manager: the bytes of the pointer that is named from now on come to its stripe, and those of
    /// the one that isn't named any longer go. After want of memory all is as before.
    pub fn note(&mut self, _alloc: Global, delta: &Delta) -> Mem<()>
        ensures counts { OnOk result ((log : LogId) (stripe : ℕ)
            → Counts (counted self.old log stripe) (bytes_in log stripe (come_by delta.now)) (bytes_in log stripe (gone_by delta.now)) (counted self.new log stripe)) }
        ensures stripes { self.new.stripes ≡ self.old.stripes }
        ensures err { OnErr result (SameUse self.old self.new) }
    {
        let come = come(delta);
        let gone = gone(delta);
        room_for(&mut self.counts, come)?;
        room_for(&mut self.counts, gone)?;
        add(&mut self.counts, come);
        take(&mut self.counts, gone);
        Ok(())
    }

    /// Takes the held stripes from a status. The counts of the others are dropped. After want of memory all is as before.
    pub fn renew(&mut self, alloc: Global, status: &Status) -> Mem<()>
        ensures stripes { OnOk result (self.new.stripes ≡ closed_in status.now.logs status.now.held) }
        ensures counts { OnOk result ((log : LogId) (stripe : ℕ)
            → counted self.new log stripe ≡ if_held (held_at log stripe status.now.held) (counted self.old log stripe)) }
        ensures err { OnErr result (self.new ≡ self.old) }
    {
        let stripes = closed(alloc, status)?;
        let counts = counts_of_held(alloc, &self.counts, status.held.slice())?;
        self.stripes = stripes;
        self.counts = counts;
        Ok(())
    }

    // A held stripe with its use.
    fn use_of(&self, held: &HeldUse) -> StripeUse
        ensures { result ≡ with_use (counted self.now) held.now }
    {
        StripeUse {
            log: held.log,
            stripe: held.stripe,
            bytes: held.end,
            live: count_at(&self.counts, (held.log.0, held.stripe)),
            born: held.born,
        }
    }

    /// The held stripes by log and stripe, other than the last one of a live log, of which pointers name fewer bytes than
    /// are committed. It looks at each held stripe once.
    pub fn candidates(&self, alloc: Global) -> Mem<Vec<StripeUse>>
        ensures { IfOk result (λ list. list.items ≡ candidates_of (counted self.now) self.now.stripes) }
    {
        let mut list = Vec::new(alloc);
        for held in &self.stripes {
            let found = self.use_of(held);
            if found.live < found.bytes {
                list.push(found)?;
            }
        }
        Ok(list)
    }
}
