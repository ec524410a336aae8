ghost use Rattle.std.specs.Prelude.{◌≡◌, ◌+◌, ◌-◌, ◌≤◌, ◌^◌, min, IfOk, IfSome};
ghost use Rattle.zb_work.specs.Fitting.{IsBehind};
ghost use Rattle.zb_steps.specs.Desks.{SeenDesk, IsLogOf, HasGiven, first_desk};

use std::alloc::Global;
use std::marker::Model;
use zb_cache::BlockCache;
use zb_log::LogBuf;
use zb_types::{Geometry, LogId, Mem};
use zb_work::Flushed;

/// How many blocks a client's cache has room for.
const MOST_CACHED: usize = 64;

/// What a client works with, beside its calls and its work: its log with its last flush, the number of its next batch,
/// and the blocks that it fetched last.
#[derive(Drop)]
pub struct Desk {
    pub(crate) geo: Geometry,
    pub(crate) id: LogId,
    pub(crate) log: LogBuf,
    pub(crate) batch: u64,
    pub(crate) flushed: Option<Flushed>,
    pub(crate) cache: BlockCache,
}

impl Model for Desk {
    ghost use Rattle.std.specs.Prelude.{◌≤◌, IfSome};
    ghost use Rattle.zb_work.specs.Fitting.{IsBehind};
    ghost use Rattle.zb_steps.specs.Desks.{SeenDesk, IsLogOf, HasGiven};

    ghost Value = { SeenDesk };

    ghost view = { λ a. record {
      servers = a.geo.servers;
      fragment = a.geo.fragment;
      block = a.geo.block;
      log = a.log;
      batch = a.batch;
      flushed = a.flushed;
      cache = a.cache;
    } };

    ghost invariant = { λ a. IsLogOf a.geo.servers a.geo.fragment a.geo.block a.id a.log
        × (IfSome a.flushed (IsBehind a.log))
        × HasGiven a.log
        × (1 ≤ a.batch) };
}

impl Desk {
    /// A desk whose log is new.
    pub fn new(alloc: Global, geo: &Geometry, log: LogId) -> Mem<Desk>
        ensures { IfOk result (λ made. made ≡ first_desk geo.now.servers geo.now.fragment geo.now.block log) }
    {
        Ok(Desk {
            geo: *geo,
            id: log,
            log: LogBuf::new(alloc, geo, log)?,
            batch: 1,
            flushed: None,
            cache: BlockCache::new(alloc, MOST_CACHED)?,
        })
    }

    /// What is true of each desk; it runs no code. Its log has the sizes of the system, among them a server for the
    /// parity, has given some bytes of its stripe, and goes on behind its last flush; its batches are numbered from 1.
    pub fn knows(&self)
        ensures log { IsLogOf self.now.servers self.now.fragment self.now.block self.now.log.log self.now.log }
        ensures behind { IfSome self.now.flushed (IsBehind self.now.log) }
        ensures given { HasGiven self.now.log }
        ensures numbered { 1 ≤ self.now.batch }
        ensures servers { 2 ≤ self.now.log.servers }
    {
        // Names a field, so that what holds of the fields is known here.
        let _ = &self.geo;
    }

    /// The sizes of the system.
    pub fn geo(&self) -> Geometry
        ensures servers { result.servers ≡ self.now.servers }
        ensures fragment { result.fragment ≡ self.now.fragment }
        ensures block { result.block ≡ self.now.block }
    {
        self.geo
    }

    /// The number of the next batch.
    pub fn batch(&self) -> u64
        ensures { result ≡ self.now.batch }
    {
        self.batch
    }

    /// The next batch is committed: the one behind it is the next. A number at its last value stands still.
    pub fn count(&mut self)
        ensures { self.new ≡ record self.old { batch = min (self.old.batch + 1) (2 ^ 64 - 1) } }
    {
        self.batch = self.batch.saturating_add(1);
    }
}
