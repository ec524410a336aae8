ghost use Rattle.std.specs.Prelude.{◌≡◌, ◌+◌, ◌-◌, ◌<◌, ◌≤◌, ◌∷◌, [], length, IfOk, OnOk, OnErr, IfSome, Option, None, Some, true, false, vec_len, vec_capacity};
ghost use Rattle.zb_pass.specs.Fitting.{NextFits, WorkFits};
ghost use Rattle.zb_steps.specs.Desks.{IsLogOf, HasGiven};
ghost use Rattle.zb_work.specs.Fitting.{IsBehind};
ghost use Rattle.zb_cleaner.specs.Seen.{SeenCleaner, IsFor, ends_pass, first_cleaner, goes_so, goes_to, kind_of, unready};

use crate::steps::Told;
use std::alloc::Global;
use std::marker::Model;
use zb_pass::{Next, Work, Writer};
use zb_types::{Geometry, ItemList, Kind, LogId, Mem, NoMemory, Outcome, Pass};
use zb_usage::Chooses;

/// The cleaner without devices, with the policy by which it picks stripes: its jobs, its log, and its work.
#[derive(Drop)]
pub struct Cleaner<C> {
    pub(crate) policy: C,
    pub(crate) writer: Writer,
    pub(crate) jobs: usize,
    pub(crate) work: Option<Work>,
    // The memory for the line of the step that stands.
    pub(crate) spare: Option<Vec<Outcome>>,
}

impl<C> Model for Cleaner<C> {
    ghost use Rattle.std.specs.Prelude.{is_some, option_map, vec_capacity};
    ghost use Rattle.zb_pass.specs.Fitting.{WorkFits};
    ghost use Rattle.zb_cleaner.specs.Seen.{SeenCleaner, HasRoom, IsFor};

    ghost Value = { SeenCleaner };

    ghost view = { λ a. record { writer = a.writer; jobs = a.jobs; work = a.work; is_ready = is_some a.spare } };

    ghost invariant = { λ a. WorkFits a.writer a.work
        × IsFor a.jobs a.work
        × HasRoom (option_map (λ v. v.items) a.spare) (option_map (λ v. vec_capacity v) a.spare) };
}

/// One line of a pass.
fn told_line(lines: Vec<Outcome>, line: Pass) -> Told
    requires empty { lines.items ≡ [] }
    requires room { 1 ≤ vec_capacity lines }
    ensures { result ≡ Told.Lines (Outcome.Clean line ∷ []) }
{
    let mut lines = lines;
    lines.push(Outcome::Clean(line)).unwrap();
    Told::Lines(ItemList::of(lines))
}

impl<C: Chooses> Cleaner<C> {
    /// A cleaner without jobs, whose log is new, and which picks stripes by this policy.
    pub fn new(alloc: Global, geo: &Geometry, log: LogId, policy: C) -> Mem<Cleaner<C>>
        ensures { IfOk result (λ made. made ≡ first_cleaner geo.now.servers geo.now.fragment geo.now.block log) }
    {
        Ok(Cleaner {
            policy,
            writer: Writer::new(alloc, geo, log)?,
            jobs: 0,
            work: None,
            spare: None,
        })
    }

    /// Makes the cleaner as new, with this log and the same policy. After want of memory it is as before.
    pub fn restart(&mut self, alloc: Global, log: LogId) -> Mem<()>
        ensures ok { OnOk result (self.new ≡ first_cleaner self.old.writer.servers self.old.writer.fragment self.old.writer.block log) }
        ensures err { OnErr result (self.new ≡ self.old) }
    {
        let writer = Writer::new(alloc, &self.writer.geo(), log)?;
        self.writer = writer;
        self.jobs = 0;
        self.work = None;
        self.spare = None;
        Ok(())
    }

    /// What is true of each cleaner; it runs no code. Its log has the sizes of the system, has given some bytes of its
    /// stripe, and goes on behind its last flush. The pointers that a pass has are into its stripe, and the blocks that
    /// have come are as long as theirs say; its batch moves these blocks, each from its old pointer and at the version of
    /// its file; and what it deletes are strays by the status that it has.
    pub fn knows(&self)
        ensures log { IsLogOf self.now.writer.servers self.now.writer.fragment self.now.writer.block self.now.writer.log.log self.now.writer.log }
        ensures behind { IfSome self.now.writer.flushed (IsBehind self.now.writer.log) }
        ensures given { HasGiven self.now.writer.log }
        ensures work { WorkFits self.now.writer self.now.work }
        ensures of_job { IsFor self.now.jobs self.now.work }
    {
        self.writer.knows();
    }

    /// The kind of the next step, `Idle` where there is no job.
    pub fn kind(&self) -> Kind
        ensures { result ≡ kind_of self.now }
    {
        match &self.work {
            Some(work) => work.kind(),
            None if self.jobs == 0 => Kind::Idle,
            None => Kind::Pick,
        }
    }

    /// How many jobs haven't ended.
    pub fn jobs(&self) -> usize
        ensures { result ≡ self.now.jobs }
    {
        self.jobs
    }

    /// Takes the memory for the step that stands. After want of it the cleaner is as before.
    pub fn ready(&mut self, alloc: Global) -> Mem<()>
        ensures ok { OnOk result (self.new ≡ record self.old { is_ready = true }) }
        ensures err { OnErr result (self.new ≡ self.old) }
    {
        let lines = Vec::with_capacity(alloc, 1)?;
        self.spare = Some(lines);
        Ok(())
    }

    /// Puts a job at the end of the queue. Jobs without a number are counted: want of memory comes where no more can be,
    /// and then the cleaner is as before.
    pub fn push(&mut self, _alloc: Global) -> Mem<()>
        ensures ok { OnOk result (self.new ≡ record (unready self.old) { jobs = self.old.jobs + 1 }) }
        ensures err { OnErr result (self.new ≡ self.old) }
    {
        let Some(jobs) = self.jobs.checked_add(1) else {
            return Err(NoMemory);
        };
        self.jobs = jobs;
        self.spare = None;
        Ok(())
    }

    /// Takes the work out, and leaves none.
    pub(crate) fn take_work(&mut self) -> Option<Work>
        ensures taken { result ≡ self.old.work }
        ensures left { self.new ≡ record self.old { work = None } }
    {
        self.work.take()
    }

    /// The pass is at this work.
    pub(crate) fn put_work(&mut self, work: Work)
        requires fits { WorkFits self.old.writer (Some work) }
        requires job { 0 < self.old.jobs }
        ensures { self.new ≡ record self.old { work = Some work } }
    {
        self.work = Some(work);
    }

    /// The pass ends with its line, and with it the first job.
    pub(crate) fn end_pass(&mut self, line: Pass) -> Told
        requires ready { self.old.is_ready ≡ true }
        ensures { ends_pass self.old line ≡ record { cleaner = self.new; told = result } }
    {
        let lines = self.spare.take().unwrap();
        self.work = None;
        self.jobs = self.jobs.saturating_sub(1);
        told_line(lines, line)
    }

    /// The pass goes on so.
    pub(crate) fn go_on(&mut self, next: Next) -> Told
        requires ready { self.old.is_ready ≡ true }
        requires job { 0 < self.old.jobs }
        requires fits { NextFits self.old.writer next }
        ensures { goes_so self.old next ≡ record { cleaner = self.new; told = result } }
    {
        match next {
            Next::Work(work) => {
                self.put_work(work);
                self.spare = None;
                Told::Nothing
            }
            Next::End(line) => self.end_pass(line),
        }
    }
}
