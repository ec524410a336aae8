ghost use Rattle.std.specs.Prelude.{◌≡◌, List, ◌+◌, ◌-◌, ◌*◌, ◌<◌, ◌≤◌, ◌^◌, ◌∷◌, ◌++◌, [], length, min, drop, take, Option, None, Some, IfOk, OnOk, OnErr, IfSome, All, true, false, nat_lt, slice_get, vec_len, vec_capacity, option_map};
ghost use Rattle.zb_types.specs.Apply.{is_update};
ghost use Rattle.zb_basis.specs.Runs.{run_of};
ghost use Rattle.zb_work.specs.declared.work.Aim.{Aim};
ghost use Rattle.zb_work.specs.declared.work.Aim.TheVariants.{Finish};
ghost use Rattle.zb_work.specs.Steps.{new_task, next_task, aim_of};
ghost use Rattle.zb_basis.specs.declared.calls.Numbered.{Numbered};
ghost use Rattle.zb_work.specs.Fitting.{TaskFits, AimFits, IsBehind};
ghost use Rattle.zb_steps.specs.Desks.{SeenDesk};
ghost use Rattle.zb_client.specs.Seen.{SeenClient, IsLogOf, HasGiven, kind_of, unready, in_doubt, first_client, leaves, settled};

use std::alloc::Global;
use std::collections::VecDeque;
use std::marker::Model;
use zb_basis::{Numbered, run_length};
use zb_steps::{Desk, run_of};
use zb_types::{Call, Geometry, Kind, LogId, Mem, Outcome};
use zb_work::{Aim, Task, aim_of, put_task};

/// A client without devices: the calls that it keeps and that are queued, what it works with, and its work.
#[derive(Drop)]
pub struct Client {
    pub(crate) client: u8,
    pub(crate) desk: Desk,
    pub(crate) kept: Vec<Numbered>,
    pub(crate) queue: VecDeque<Numbered>,
    pub(crate) task: Option<Task>,
    // How many of the kept calls are in doubt.
    pub(crate) doubted: usize,
    // The memory for the lines of the step that stands.
    pub(crate) spare: Option<Vec<Outcome>>,
}

impl Model for Client {
    ghost use Rattle.std.specs.Prelude.{◌≤◌, is_some, length, option_map, vec_capacity};
    ghost use Rattle.zb_work.specs.Steps.{aim_of};
    ghost use Rattle.zb_work.specs.Fitting.{AimFits};
    ghost use Rattle.zb_client.specs.Seen.{SeenClient, IsKept, HasRoom};

    ghost Value = { SeenClient };

    ghost view = { λ a. record {
      servers = a.desk.servers;
      fragment = a.desk.fragment;
      block = a.desk.block;
      client = a.client;
      log = a.desk.log;
      batch = a.desk.batch;
      kept = a.kept.items;
      queue = a.queue.items;
      task = a.task;
      flushed = a.desk.flushed;
      doubted = a.doubted;
      cache = a.desk.cache;
      is_ready = is_some a.spare;
    } };

    ghost invariant = { λ a. IsKept a.desk.servers a.desk.fragment a.desk.block a.desk.log a.kept.items a.queue.items a.task a.doubted
        × HasRoom (length a.kept.items) (option_map (λ v. v.items) a.spare) (option_map (λ v. vec_capacity v) a.spare)
        × AimFits a.kept.items a.queue.items (aim_of a.task) };
}

/// The first so many calls leave.
fn drop_first(kept: &mut Vec<Numbered>, n: usize)
    requires { n ≤ length kept.old.items }
    ensures { kept.new.items ≡ drop n kept.old.items }
{
    kept.drain(..n);
}

/// So many of the kept calls leave, and the next batch or the read is at work.
pub(crate) fn leave(kept: &mut Vec<Numbered>, desk: &mut Desk, task: &mut Option<Task>, n: usize)
    requires { n ≤ length kept.old.items }
    ensures kept { kept.new.items ≡ drop n kept.old.items }
    ensures batch { desk.new ≡ record desk.old { batch = min (desk.old.batch + 1) (2 ^ 64 - 1) } }
    ensures task { task.new ≡ next_task (aim_of task.old) (nat_lt 0 (length (drop n kept.old.items))) }
    ensures aim { (queue : List Numbered) → AimFits kept.old.items queue (aim_of task.old) → AimFits kept.new.items queue (aim_of task.new) }
{
    drop_first(kept, n);
    desk.count();
    let next = Task::behind(aim_of(task), !kept.is_empty());
    put_task(task, next);
}

impl Client {
    /// The client of this number, whose log is new.
    pub fn new(alloc: Global, geo: &Geometry, client: u8, log: LogId) -> Mem<Client>
        ensures { IfOk result (λ made. made ≡ first_client geo.now.servers geo.now.fragment geo.now.block client log) }
    {
        Ok(Client {
            client,
            desk: Desk::new(alloc, geo, log)?,
            kept: Vec::new(alloc),
            queue: VecDeque::new(alloc),
            task: None,
            doubted: 0,
            spare: None,
        })
    }

    /// What is true of each client; it runs no code. Its log has the sizes of the system, has given some bytes of its
    /// stripe, and goes on behind its last flush; its batches are numbered from 1; updates alone are kept, those in doubt
    /// among them. What was found and the blocks that are there are for the work at hand. While a batch is stored or
    /// committed none is in doubt, and its operations are as many as the calls of the next batch.
    /// The work is for the first queued call, no update, for the last kept call, or for all kept calls.
    pub fn knows(&self)
        ensures log { IsLogOf self.now.servers self.now.fragment self.now.block self.now.log.log self.now.log }
        ensures given { HasGiven self.now.log }
        ensures behind { IfSome self.now.flushed (IsBehind self.now.log) }
        ensures numbered { 1 ≤ self.now.batch }
        ensures updates { All (λ call. is_update call.call ≡ true) self.now.kept }
        ensures in_doubt { self.now.doubted ≤ length self.now.kept }
        ensures work { TaskFits self.now.servers self.now.fragment self.now.block self.now.log self.now.kept self.now.queue self.now.doubted self.now.task }
        ensures aim { AimFits self.now.kept self.now.queue (aim_of self.now.task) }
    {
        self.desk.knows();
    }

    /// The kind of the next step, `Idle` where there is none.
    pub fn kind(&self) -> Kind
        ensures { result ≡ kind_of self.now }
    {
        match &self.task {
            Some(task) => task.step.kind(),
            None if self.queue.is_empty() => Kind::Idle,
            None => Kind::Call,
        }
    }

    /// Takes the memory for the step that stands. After want of it the client is as before.
    pub fn ready(&mut self, alloc: Global) -> Mem<()>
        ensures ok { OnOk result (self.new ≡ record self.old { is_ready = true }) }
        ensures err { OnErr result (self.new ≡ self.old) }
    {
        let lines = Vec::with_capacity(alloc, self.kept.len() + 1)?;
        self.spare = Some(lines);
        Ok(())
    }

    /// Puts a call at the end of the queue. After want of memory the client is as before.
    pub fn push(&mut self, alloc: Global, number: u64, call: Call) -> Mem<()>
        ensures ok { OnOk result (self.new
            ≡ record (unready self.old) { queue = self.old.queue ++ (record { number = number; call = call }) ∷ [] }) }
        ensures err { OnErr result (self.new ≡ self.old) }
    {
        self.queue.push_back(Numbered { number, call })?;
        self.spare = None;
        Ok(())
    }

    /// Begins the commit of all kept calls, at the end of a run, of an idle client that keeps calls. Where it can't go
    /// on, each of them ends as unfinished.
    pub fn flush(&mut self)
        requires idle { kind_of self.old ≡ Kind.Idle }
        requires keeps { 0 < length self.old.kept }
        ensures { self.new ≡ record (unready self.old) { task = new_task Finish } }
    {
        self.begin(Aim::Finish);
    }

    /// The number of the batch in doubt.
    pub fn doubt(&self) -> Option<u64>
        ensures { result ≡ in_doubt self.now }
    {
        if self.doubted == 0 {
            None
        } else {
            Some(self.desk.batch())
        }
    }

    /// The calls in doubt leave, and the next batch or the read is at work.
    fn leave_doubted(&mut self)
        ensures { self.new ≡ record (unready (leaves self.old self.old.doubted)) { doubted = 0 } }
    {
        let n = self.doubted;
        leave(&mut self.kept, &mut self.desk, &mut self.task, n);
        self.doubted = 0;
        self.spare = None;
    }

    /// Ends the doubt: the batch in doubt is committed, and its calls aren't kept any longer, or it is not, and they
    /// stay kept.
    pub fn settle(&mut self, committed: bool)
        requires { 0 < self.old.doubted }
        ensures { self.new ≡ settled self.old committed }
    {
        if committed {
            self.leave_doubted();
            return;
        }
        self.doubted = 0;
        self.spare = None;
    }

    /// The number of the i-th call that is kept, from 0, those in doubt among them.
    pub fn kept(&self, i: usize) -> Option<u64>
        ensures { result ≡ option_map (λ call. call.number) (slice_get self.now.kept i) }
    {
        match self.kept.get(i) {
            Some(call) => Some(call.number),
            None => None,
        }
    }

    /// The number of the i-th call that is queued, from 0; a read at work is the first.
    pub fn queued(&self, i: usize) -> Option<u64>
        ensures { result ≡ option_map (λ call. call.number) (slice_get self.now.queue i) }
    {
        match self.queue.get(i) {
            Some(call) => Some(call.number),
            None => None,
        }
    }

    /// The calls of the next batch, none where no call is kept.
    pub(crate) fn run(&self) -> &[Numbered]
        ensures run { result.now ≡ run_of self.now.kept }
        ensures updates { All (λ call. is_update call.call ≡ true) result.now }
    {
        run_of(&self.kept)
    }

    /// Begins to work, with a lookup.
    pub(crate) fn begin(&mut self, aim: Aim)
        requires { AimFits self.old.kept self.old.queue (Some aim) }
        ensures { self.new ≡ record (unready self.old) { task = new_task aim } }
    {
        put_task(&mut self.task, Task::begin(aim));
        self.spare = None;
    }
}
