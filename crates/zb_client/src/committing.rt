ghost use Rattle.std.specs.Prelude.{◌≡◌, ◌+◌, ◌≤◌, ◌<◌, ◌^◌, length, true, List, Option};
ghost use Rattle.zb_types.specs.declared.nodes.Cause.TheVariants.{Down};
ghost use Rattle.zb_basis.specs.Runs.{run_of};
ghost use Rattle.zb_basis.specs.declared.calls.Numbered.{Numbered};
ghost use Rattle.zb_work.specs.Steps.{step_of, aim_of};
ghost use Rattle.zb_work.specs.Fitting.{AimFits};
ghost use Rattle.zb_client.specs.Telling.{Heard, looks_anew, gives_up};
ghost use Rattle.zb_client.specs.Answering.{CanCommit};
ghost use Rattle.zb_client.specs.Hearing.{tried, hears_outdated, hears_doubt, commits};

use crate::client::{Client, leave};
use crate::lines::told_replies;
use crate::steps::{ReplyList, Told};
use zb_basis::{Numbered, run_length};
use zb_types::{Cause, CommitFault};
use zb_work::{Task, is_commit, look};

/// The batch was Stale once more.
fn count_try(task: &mut Option<Task>)
    ensures tried { task.new ≡ tried task.old }
    ensures aim { (kept queue : List Numbered) → AimFits kept queue (aim_of task.old) → AimFits kept queue (aim_of task.new) }
{
    if let Some(task) = task {
        task.tries = task.tries.saturating_add(1);
    }
}

/// How many calls the next batch has.
fn run_count(kept: &[Numbered]) -> usize
    ensures count { result ≡ length (run_of kept.now) }
    ensures within { result ≤ length kept.now }
{
    let n = run_length(kept);
    kept[..n].len()
}

impl Client {
    /// The batch is behind a version, and is looked up anew.
    fn hear_stale(&mut self) -> Told
        ensures { looks_anew (record self.old { task = tried self.old.task }) ≡ record { client = self.new; told = result } }
    {
        count_try(&mut self.task);
        look(&mut self.task);
        self.spare = None;
        Told::Nothing
    }

    /// The batch is behind the members or behind a version, and is looked up anew.
    pub(crate) fn hear_outdated(&mut self, fault: CommitFault) -> Told
        ensures { hears_outdated self.old fault ≡ record { client = self.new; told = result } }
    {
        match fault {
            CommitFault::Stale { .. } => self.hear_stale(),
            _ => self.look_anew(),
        }
    }

    /// The batch that was being committed is in doubt.
    fn doubt_run(&mut self) -> Told
        requires { self.old.is_ready ≡ true }
        ensures { gives_up (record self.old { doubted = length (run_of self.old.kept) }) Down ≡ record { client = self.new; told = result } }
    {
        look(&mut self.task);
        self.doubted = run_count(&self.kept);
        self.give_up(Cause::Down)
    }

    /// The file manager stopped: a batch that was being committed is in doubt.
    pub(crate) fn hear_doubt(&mut self) -> Told
        requires { self.old.is_ready ≡ true }
        ensures { hears_doubt self.old (step_of self.old.task) ≡ record { client = self.new; told = result } }
    {
        if is_commit(&self.task) {
            return self.doubt_run();
        }
        self.give_up(Cause::Down)
    }

    /// Calls are told these replies and leave, and the next batch or the read is at work.
    fn commit(&mut self, replies: ReplyList) -> Told
        requires ready { self.old.is_ready ≡ true }
        requires within { length replies ≤ length self.old.kept }
        requires settled { self.old.doubted ≡ 0 }
        ensures { commits self.old replies ≡ record { client = self.new; told = result } }
    {
        let n = replies.len();
        let lines = self.spare.take().unwrap();
        let told = told_replies(lines, self.client, &self.kept, replies);
        leave(&mut self.kept, &mut self.desk, &mut self.task, n);
        told
    }

    /// The batch is committed with these replies: its calls are told them, and the next batch or the read is at work.
    pub(crate) fn hear_replies(&mut self, replies: ReplyList) -> Told
        requires ready { self.old.is_ready ≡ true }
        requires can { CanCommit (step_of self.old.task) replies }
        ensures { commits self.old replies ≡ record { client = self.new; told = result } }
    {
        // Names a field, so that what holds of the client's fields is known here.
        let _ = &self.kept;
        self.commit(replies)
    }
}
