ghost use Rattle.std.specs.Prelude.{◌≡◌, ◌≤◌, IfOk, IfSome};
ghost use Rattle.zb_work.specs.Fitting.{IsBehind};
ghost use Rattle.zb_steps.specs.Desks.{IsLogOf, HasGiven};
ghost use Rattle.zb_pass.specs.Seen.{SeenWriter, first_writer};

use std::alloc::Global;
use std::marker::Model;
use zb_log::LogBuf;
use zb_types::{Geometry, LogId, Mem};
use zb_work::Flushed;

/// What the cleaner writes with: its log with its last flush.
#[derive(Drop)]
pub struct Writer {
    pub(crate) geo: Geometry,
    pub(crate) id: LogId,
    pub(crate) log: LogBuf,
    pub(crate) flushed: Option<Flushed>,
}

impl Model for Writer {
    ghost use Rattle.std.specs.Prelude.{IfSome};
    ghost use Rattle.zb_work.specs.Fitting.{IsBehind};
    ghost use Rattle.zb_steps.specs.Desks.{IsLogOf, HasGiven};
    ghost use Rattle.zb_pass.specs.Seen.{SeenWriter};

    ghost Value = { SeenWriter };

    ghost view = { λ a. record {
      servers = a.geo.servers;
      fragment = a.geo.fragment;
      block = a.geo.block;
      log = a.log;
      flushed = a.flushed;
    } };

    ghost invariant = { λ a. IsLogOf a.geo.servers a.geo.fragment a.geo.block a.id a.log
        × (IfSome a.flushed (IsBehind a.log))
        × HasGiven a.log };
}

impl Writer {
    /// A writer whose log is new.
    pub fn new(alloc: Global, geo: &Geometry, log: LogId) -> Mem<Writer>
        ensures { IfOk result (λ made. made ≡ first_writer geo.now.servers geo.now.fragment geo.now.block log) }
    {
        Ok(Writer {
            geo: *geo,
            id: log,
            log: LogBuf::new(alloc, geo, log)?,
            flushed: None,
        })
    }

    /// What is true of each writer; it runs no code. Its log has the sizes of the system, among them a server for the
    /// parity, has given some bytes of its stripe, and goes on behind its last flush.
    pub fn knows(&self)
        ensures log { IsLogOf self.now.servers self.now.fragment self.now.block self.now.log.log self.now.log }
        ensures behind { IfSome self.now.flushed (IsBehind self.now.log) }
        ensures given { HasGiven self.now.log }
        ensures servers { 2 ≤ self.now.log.servers }
    {
        // Names a field, so that what holds of the fields is known here.
        let _ = &self.geo;
    }

    /// The sizes of the system.
    pub fn geo(&self) -> Geometry
        ensures servers { result.servers ≡ self.now.servers }
        ensures fragment { result.fragment ≡ self.now.fragment }
        ensures block { result.block ≡ self.now.block }
    {
        self.geo
    }
}
