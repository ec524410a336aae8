ghost use Rattle.std.specs.Prelude.{◌≡◌, ◌≢◌, ◌≤◌, ◌<◌, ◌-◌, ◌↔◌, suc, [], List, length, not, IfOk, IfErr, OnOk, OnErr, Some, None, IsTrue, is_err, is_some};
ghost use Rattle.zb_types.specs.Limits.{within};
ghost use Rattle.zb_types.specs.Tree.{listing};
ghost use Rattle.zb_types.specs.History.{IsLegal};
ghost use Rattle.zb_types.specs.declared.lines.Kind.TheVariants.{Idle};
ghost use Rattle.zb_types.specs.declared.lines.Outcome.{Outcome};
ghost use Rattle.zb_claims.specs.Points.{dids, tree_at};
ghost use Rattle.zb_given.specs.Given.{Given, script_of, with_finish};
ghost use Rattle.zb_forming_laws.specs.Resting.{IsShort};
ghost use Rattle.zb_outside.specs.Counts.{TouchesReport, TouchesScript};
ghost use Rattle.zb_outside.specs.Streams.{PutTold, TakeTold};
ghost use Rattle.zb_ledger.specs.Seen.{count_of};
ghost use Rattle.zb_ending.specs.Left.{work_left};
ghost use Rattle.zb_finishing.specs.Clients.{AllIdle, AllKeepNone};
ghost use Rattle.zb_course.specs.Sound.{most_calls};
ghost use Rattle.zb_course.specs.Steps.{IsFirstCourse, TakesCall, TellsRest, holder_of};
ghost use Rattle.zb_nodes.specs.Seen.{kind_at};
ghost use Rattle.zb_running.specs.Reports.{HasReport};
ghost use Rattle.zb_running.specs.Telling.{HasHalted, SomeHasTold, TellsMore, TellsUntil};
ghost use Rattle.zb_world.specs.World.{ActsSo, HaltsSo, IsActor, IsSound, blocker_for, kind_for};

use std::alloc::Global;
use std::marker::Model;
use thiserror::Error;
use zb_course::{Course, Step};
use zb_history::History;
use zb_nodes::Halt;
use zb_outside::Outside;
use zb_types::{Call, Failed, Geometry, Kind, Mem, NoMemory, Node, TreeList};

/// Why a world did not begin.
#[derive(Clone, Copy, Debug, PartialEq, Eq, Error)]
pub enum StartFault {
    #[error("platter {platter} failed")]
    Platter { platter: u8 },
    #[error("out of memory")]
    NoMemory,
}

/// All nodes of a system, with the outside that they stand on.
#[derive(Drop)]
pub struct World<O: Outside + Drop> {
    geo: Geometry,
    course: Course,
    out: O,
}

impl<O: Outside + Drop> Model for World<O> {
    ghost use Rattle.zb_world.specs.World.{IsSound, SeenWorld};

    ghost Value = { SeenWorld O };

    ghost view = { λ a. record { geo = a.geo; course = a.course; out = a.out } };

    ghost invariant = { λ a. IsSound a.geo a.course };
}

impl<O: Outside + Drop> World<O> {
    /// A world of a system of these sizes, which was given nothing. Want of memory gives the outside back.
    pub fn new(alloc: Global, geo: Geometry, out: O) -> Result<World<O>, (StartFault, O)>
        ensures geo { IfOk result (λ world. world.geo ≡ geo) }
        ensures first { IfOk result (λ world. IsFirstCourse geo world.course) }
        ensures settled { IfOk result (λ world. world.course.untold ≡ None) }
        ensures out { IfOk result (λ world. world.out ≡ out) }
        ensures cause { IfErr result (λ e. e.0 ≡ StartFault.NoMemory) }
        ensures back { IfErr result (λ e. e.1 ≡ out) }
    {
        match Course::new(alloc, &geo) {
            Ok(course) => Ok(World { geo, course, out }),
            Err(NoMemory) => Err((StartFault::NoMemory, out)),
        }
    }

    /// That it is sound: at any time its lines fit what it was given, and tell one legal history.
    pub fn is_sound(&self)
        ensures { IsSound self.now.geo self.now.course }
    {
        let _ = &self.course;
    }

    /// Gives a call to a client, and answers its number, from 1. After 2^40 calls of all clients together no more is taken,
    /// which is told as want of memory; after that nothing has changed.
    pub fn call(&mut self, alloc: Global, client: u8, call: Call) -> Mem<u64>
        requires client { IsTrue (within 1 self.old.geo.clients client) }
        requires short { IsShort call }
        requires told { self.old.course.untold ≡ None }
        ensures number { IfOk result (λ number. number ≡ suc (count_of self.old.course.ledger client)) }
        ensures ok { OnOk result (TakesCall self.old.course self.new.course client call) }
        ensures few { OnOk result (self.old.course.calls < most_calls) }
        ensures geo { self.new.geo ≡ self.old.geo }
        ensures out { self.new.out ≡ self.old.out }
        ensures err { OnErr result (self.new ≡ self.old) }
    {
        self.course.call(alloc, client, call)
    }

    /// Tells the lines of a step that was made, and that halted for want of memory for their text. After want of memory they
    /// still wait.
    pub fn tell(&mut self, alloc: Global) -> Mem<()>
        ensures ok { OnOk result (TellsRest self.old.course self.new.course) }
        ensures geo { self.new.geo ≡ self.old.geo }
        ensures out { self.new.out ≡ self.old.out }
        ensures err { OnErr result (self.new ≡ self.old) }
    {
        self.course.tell(alloc)
    }

    /// Whether lines wait for `tell`.
    pub fn is_behind(&self) -> bool
        ensures { result ≡ is_some self.now.course.untold }
    {
        self.course.is_behind()
    }

    /// One step of an actor. It is `Idle` exactly where the actor has no work, as servers and the file manager; `Blocked`
    /// exactly where a client's commit, or its lookup that is to hold the file manager, finds that another client holds it;
    /// else `Answered` exactly where it told lines.
    ///
    /// After a halt nothing has changed but that the client may have memory for its next step; or, where memory was wanting
    /// for their text, the step was made, and its lines wait for `tell`.
    pub fn step(&mut self, alloc: Global, actor: Node) -> Result<Step, Halt>
        requires actor { IsActor self.old.geo actor }
        requires told { self.old.course.untold ≡ None }
        ensures ok { IfOk result (ActsSo self.old.course self.new.course actor) }
        ensures idle { IfOk result (λ step. (step ≡ Step.Idle) ↔ (kind_for self.old.course actor ≡ Some Idle)) }
        ensures blocked { IfOk result (λ step. holder_of step ≡ blocker_for self.old.course actor) }
        ensures quiet { IfOk result (λ step. step ≢ Step.Answered → self.new.course.text ≡ self.old.course.text) }
        ensures less { IfOk result (λ step. step ≢ Step.Idle → holder_of step ≡ None → work_left self.new.course.nodes < work_left self.old.course.nodes) }
        ensures settled { OnOk result (self.new.course.untold ≡ None) }
        ensures geo { self.new.geo ≡ self.old.geo }
        ensures out { self.new.out ≡ self.old.out }
        ensures err { IfErr result (HaltsSo self.old.course self.new.course actor) }
    {
        match actor {
            Node::Client(client) => self.course.step(alloc, client),
            Node::Server(_) | Node::Manager | Node::Cleaner | Node::Mender => Ok(Step::Idle),
        }
    }

    /// One step of a client, or, where it is blocked, of the client that holds the file manager. It is `Idle` exactly where
    /// the client has no work, and never `Blocked`.
    ///
    /// After a halt no line was told, and those of the step may wait.
    pub fn step_or_holder(&mut self, alloc: Global, client: u8) -> Result<Step, Halt>
        requires client { IsTrue (within 1 self.old.geo.clients client) }
        requires told { self.old.course.untold ≡ None }
        ensures idle { IfOk result (λ step. (step ≡ Step.Idle) ↔ (kind_at self.old.course.nodes (client - 1) ≡ Some Idle)) }
        ensures rests { IfOk result (λ step. step ≡ Step.Idle → kind_at self.new.course.nodes (client - 1) ≡ Some Idle) }
        ensures free { IfOk result (λ step. holder_of step ≡ None) }
        ensures quiet { IfOk result (λ step. step ≢ Step.Answered → self.new.course.text ≡ self.old.course.text) }
        ensures less { IfOk result (λ step. step ≢ Step.Idle → work_left self.new.course.nodes < work_left self.old.course.nodes) }
        ensures settled { OnOk result (self.new.course.untold ≡ None) }
        ensures ok { (given : Given) (lines : List Outcome) (r : HasReport self.old.geo given lines self.old.course) → OnOk result (SomeHasTold r self.new.course client) }
        ensures geo { self.new.geo ≡ self.old.geo }
        ensures out { self.new.out ≡ self.old.out }
        ensures err { (given : Given) (lines : List Outcome) → HasReport self.old.geo given lines self.old.course → OnErr result (HasHalted self.old.geo given lines self.old.course self.new.course) }
    {
        zb_running::step_or_holder(alloc, &mut self.course, client)
    }

    /// The kind of an actor's next step, `Idle` where it has no work.
    pub fn kind(&self, actor: Node) -> Kind
        requires actor { IsActor self.now.geo actor }
        ensures { kind_for self.now.course actor ≡ Some result }
    {
        match actor {
            Node::Client(client) => self.course.kind(client),
            Node::Server(_) | Node::Manager | Node::Cleaner | Node::Mender => Kind::Idle,
        }
    }

    /// Runs the clients until none has work; a client that waits for the file manager has its holder make a step. Then each
    /// that keeps calls commits them, or they end as unfinished. True where none of the calls that were given so far ended so.
    ///
    /// After a halt some lines may be told, and those of the last step may wait.
    pub fn finish(&mut self, alloc: Global) -> Result<bool, Halt>
        requires told { self.old.course.untold ≡ None }
        ensures idle { OnOk result (AllIdle self.new.course.nodes) }
        ensures none_kept { OnOk result (AllKeepNone self.new.course.nodes) }
        ensures settled { OnOk result (self.new.course.untold ≡ None) }
        ensures unfinished { IfOk result (λ done. done ≡ not self.new.course.unfinished) }
        ensures ok { (given : Given) (lines : List Outcome) → HasReport self.old.geo given lines self.old.course
            → OnOk result (TellsMore self.old.geo (with_finish given (length lines)) lines self.old.course self.new.course) }
        ensures geo { self.new.geo ≡ self.old.geo }
        ensures out { self.new.out ≡ self.old.out }
        ensures err { (given : Given) (lines : List Outcome) → HasReport self.old.geo given lines self.old.course
            → OnErr result (TellsUntil self.old.geo (with_finish given (length lines)) lines self.old.course self.new.course) }
    {
        zb_running::finish(alloc, &mut self.course, self.geo.clients as u8)
    }

    /// The tree of the lines so far, in the order of path bytes, files with their lengths.
    pub fn tree(&self, alloc: Global) -> Mem<Option<TreeList>>
        ensures { (given : Given) (lines : List Outcome) → HasReport self.now.geo given lines self.now.course
            → IfOk result (λ list. list ≡ Some (listing (tree_at (script_of given) lines))) }
    {
        Ok(Some(self.course.tree(alloc)?))
    }

    /// The updates and the reads that were answered, each in their order; it is legal, and its updates are those of the lines.
    pub fn history(&self) -> &History
        ensures updates { result.now.updates.items ≡ self.now.course.ledger.updates }
        ensures reads { result.now.reads.items ≡ self.now.course.ledger.answered }
        ensures legal { self.now.course.untold ≡ None → IsLegal result.now.updates.items result.now.reads.items }
        ensures told { (given : Given) (lines : List Outcome) → HasReport self.now.geo given lines self.now.course
            → result.now.updates.items ≡ dids (script_of given) lines }
    {
        self.course.history()
    }

    /// Takes bytes of the script, as the outside does.
    pub fn take(&mut self, buf: &mut [u8]) -> Result<usize, Failed>
        ensures bound { IfOk result (λ n. n ≤ length buf.new) }
        ensures told { IsTrue O.tells → TakeTold buf.new result (O.counts self.old.out).streams (O.counts self.new.out).streams (O.meaning self.old.out) (O.meaning self.new.out) }
        ensures touches { TouchesScript O.counts O.follows (is_err result) self.old.out self.new.out }
        ensures course { self.new.course ≡ self.old.course }
        ensures geo { self.new.geo ≡ self.old.geo }
    {
        self.out.take(buf)
    }

    /// Prints the text of the lines that weren't printed. After `Failed` a front of it was, and none of it waits any longer.
    pub fn put_report(&mut self) -> Result<(), Failed>
        ensures told { IsTrue O.tells → PutTold self.old.course.text result (O.counts self.old.out).streams (O.counts self.new.out).streams (O.meaning self.old.out) (O.meaning self.new.out) }
        ensures touches { TouchesReport O.counts O.follows (is_err result) self.old.out self.new.out }
        ensures course { self.new.course ≡ record self.old.course { text = [] } }
        ensures geo { self.new.geo ≡ self.old.geo }
    {
        let put = self.out.put(self.course.text());
        self.course.hand_over();
        put
    }

    /// The outside, with all else given up.
    pub fn outside(self) -> O
        ensures { result ≡ self.out }
    {
        self.out
    }
}
