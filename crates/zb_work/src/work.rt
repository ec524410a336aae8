ghost use Rattle.std.specs.Prelude.{◌≡◌, ℕ, List, Option};
ghost use Rattle.zb_log.specs.Logs.{SeenLog};
ghost use Rattle.zb_basis.specs.declared.calls.Numbered.{Numbered};
ghost use Rattle.zb_work.specs.Steps.{kind_of_step, with_step, step_of, aim_of, new_task, next_task, is_commit, first_members};
ghost use Rattle.zb_work.specs.Fitting.{StepFits, TaskFits, AimFits};

use std::mem;
use zb_basis::{Basis, Formed, Sealed};
use zb_stripe::ReadPlan;
use zb_types::{Found, Kind, Members, Ptr, ServerId, State};

/// What a client works for.
#[derive(Clone, Copy, Debug, PartialEq, Eq)]
pub enum Aim {
    /// This call, an update, which began the commit of all kept calls.
    Update(u64),
    /// The first queued call, a read, behind the commit of all kept calls.
    Read,
    /// The commit of all kept calls at the end of a run.
    Finish,
}

/// What a client's work has come to. While it keeps calls this is about the next batch of them, else about the read.
#[derive(Drop)]
pub enum Step {
    /// Nothing is known yet.
    Lookup,
    /// It was looked up, and the block at place `at` of those that are wanted is being read.
    Fetch {
        basis: Basis,
        at: usize,
        ptr: Ptr,
        plan: ReadPlan,
    },
    /// The batch is formed, and the requests of its plan store what is left of it.
    Store {
        basis: Basis,
        formed: Formed,
    },
    /// A server didn't answer a store of this generation.
    Mark {
        server: ServerId,
        generation: u64,
    },
    /// The batch is stored.
    Commit {
        basis: Basis,
        sealed: Sealed,
    },
}

/// The work of a client.
#[derive(Drop)]
pub struct Task {
    pub aim: Aim,
    /// How often the batch was Stale.
    pub tries: u32,
    pub step: Step,
}

/// The last flush of a client's log of which a request was answered.
#[derive(Clone, Copy, Debug, PartialEq, Eq)]
pub struct Flushed {
    pub generation: u64,
    /// The last stripe that a request was delivered for; that in which the log goes on, where all were carried out.
    pub stripe: u64,
    /// Whether all its requests were carried out.
    pub ended: bool,
}

impl Task {
    /// New work, which begins with a lookup.
    pub fn begin(aim: Aim) -> Option<Task>
        ensures { result ≡ new_task aim }
    {
        Some(Task {
            aim,
            tries: 0,
            step: Step::Lookup,
        })
    }

    /// The work that is left behind a batch, where calls are kept still or not: the next batch, or the read.
    pub fn behind(aim: Option<Aim>, keeps: bool) -> Option<Task>
        ensures { result ≡ next_task aim keeps }
    {
        match aim {
            Some(Aim::Read) => Task::begin(Aim::Read),
            Some(aim) if keeps => Task::begin(aim),
            _ => None,
        }
    }
}

impl Step {
    /// The kind of the step.
    pub fn kind(&self) -> Kind
        ensures { result ≡ kind_of_step self.now }
    {
        match self {
            Step::Lookup => Kind::Lookup,
            Step::Fetch { .. } => Kind::Fetch,
            Step::Store { .. } => Kind::Store,
            Step::Mark { .. } => Kind::Mark,
            Step::Commit { .. } => Kind::Commit,
        }
    }
}

/// Puts other work in place of this.
pub fn put_task(task: &mut Option<Task>, other: Option<Task>)
    ensures { task.new ≡ other }
{
    drop(mem::replace(task, other));
}

/// The work, if there is any, is at this step now.
pub fn put_step(task: &mut Option<Task>, step: Step)
    ensures put { task.new ≡ with_step step task.old }

    // What is true of the step is true of the work.
    ensures fits { (n f b : ℕ) (log : SeenLog) (kept queue : List Numbered) (doubted : ℕ)
        → StepFits n f b log kept queue doubted step → TaskFits n f b log kept queue doubted task.new }
    ensures aim { (kept queue : List Numbered) → AimFits kept queue (aim_of task.old) → AimFits kept queue (aim_of task.new) }
{
    match task {
        Some(task) => drop(mem::replace(&mut task.step, step)),
        None => drop(step),
    }
}

/// Takes the step, and leaves a lookup in its place.
pub fn take_step(task: &mut Option<Task>) -> Step
    ensures left { task.new ≡ with_step Step.Lookup task.old }
    ensures taken { result ≡ step_of task.old }
    ensures fits { (n f b : ℕ) (log : SeenLog) (kept queue : List Numbered) (doubted : ℕ)
        → TaskFits n f b log kept queue doubted task.new }
    ensures aim { (kept queue : List Numbered) → AimFits kept queue (aim_of task.old) → AimFits kept queue (aim_of task.new) }
{
    match task {
        Some(task) => mem::replace(&mut task.step, Step::Lookup),
        None => Step::Lookup,
    }
}

/// The work looks up anew.
pub fn look(task: &mut Option<Task>)
    ensures look { task.new ≡ with_step Step.Lookup task.old }
    ensures fits { (n f b : ℕ) (log : SeenLog) (kept queue : List Numbered) (doubted : ℕ)
        → TaskFits n f b log kept queue doubted task.new }
    ensures aim { (kept queue : List Numbered) → AimFits kept queue (aim_of task.old) → AimFits kept queue (aim_of task.new) }
{
    put_step(task, Step::Lookup);
}

/// What the work is for.
pub fn aim_of(task: &Option<Task>) -> Option<Aim>
    ensures { result ≡ aim_of task.now }
{
    match task {
        Some(task) => Some(task.aim),
        None => None,
    }
}

/// Whether a batch is being committed.
pub fn is_commit(task: &Option<Task>) -> bool
    ensures { result ≡ is_commit (step_of task.now) }
{
    matches!(
        task,
        Some(Task {
            step: Step::Commit { .. },
            ..
        })
    )
}

/// The members that lookups show: those of the first.
pub fn members_of(found: &[Found]) -> Members
    ensures { result ≡ first_members found.now }
{
    match found.first() {
        Some(found) => found.members,
        None => Members {
            state: State::Whole,
            generation: 1,
        },
    }
}
