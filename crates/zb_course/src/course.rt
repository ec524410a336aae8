ghost use Rattle.std.specs.Prelude.{◌≡◌, ◌≤◌, ◌<◌, ◌-◌, ◌+◌, suc, [], length, IfOk, IfErr, OnOk, OnErr, Some, None, IsTrue, ◌↔◌, is_some};
ghost use Rattle.zb_types.specs.declared.lines.Kind.TheVariants.{Idle};
ghost use Rattle.zb_types.specs.Tree.{listing};
ghost use Rattle.zb_tables.specs.Tables.{Contents, shown_tree};
ghost use Rattle.zb_ledger.specs.Seen.{call_at, count_of};
ghost use Rattle.zb_nodes.specs.Seen.{IsSound, Keeps, blocker_at, kind_at};
ghost use Rattle.zb_course.specs.Sound.{most_calls};
ghost use Rattle.zb_course.specs.Steps.{Finishes, HasHalted, IsFirstCourse, LooksAt, OwnsRest, StepIs, TakesCall, TellsRest, holder_of};

use crate::lines::{Untold, any_unfinished, lines_told, tell_all, text_of};
use crate::step::Step;
use std::alloc::Global;
use std::marker::Model;
use zb_history::History;
use zb_ledger::Ledger;
use zb_nodes::{Halt, Moved, Nodes};
use zb_types::{Call, Geometry, Kind, Mem, NoMemory, TreeList};

/// The most calls that may be given, to all clients together.
pub const MOST_CALLS: u64 = 1 << 40;

/// The nodes of a system with the ledger of their calls, and the text of the lines that they told and that weren't handed
/// over.
#[derive(Drop)]
pub struct Course {
    nodes: Nodes,
    ledger: Ledger,
    text: Vec<u8>,
    untold: Option<Untold>,
    unfinished: bool,
    calls: u64,
}

impl Model for Course {
    ghost use Rattle.zb_course.specs.Seen.{SeenCourse};

    ghost Value = { SeenCourse };

    ghost view = { λ a. record { nodes = a.nodes; ledger = a.ledger; text = a.text.items; untold = a.untold; unfinished = a.unfinished; calls = a.calls } };
}

impl Course {
    /// The first nodes of a system, which were given nothing.
    pub fn new(alloc: Global, geo: &Geometry) -> Mem<Course>
        ensures { IfOk result (IsFirstCourse geo.now) }
    {
        Ok(Course {
            nodes: Nodes::new(alloc, geo)?,
            ledger: Ledger::new(alloc, geo.clients as u8)?,
            text: Vec::new(alloc),
            untold: None,
            unfinished: false,
            calls: 0,
        })
    }

    /// Gives a client a call, and answers its number, from 1. After 2^40 calls of all clients together no more is taken,
    /// which is told as want of memory; after that nothing has changed.
    pub fn call(&mut self, alloc: Global, client: u8, call: Call) -> Mem<u64>
        requires first { 1 ≤ client }
        requires last { client ≤ length self.old.nodes.clients }
        requires own { client ≤ self.old.ledger.clients }
        requires places { client < length self.old.ledger.counts }
        requires fresh { call_at self.old.ledger.waiting client (suc (count_of self.old.ledger client)) ≡ None }
        ensures number { IfOk result (λ number. number ≡ suc (count_of self.old.ledger client)) }
        ensures ok { OnOk result (TakesCall self.old self.new client call) }
        ensures few { OnOk result (self.old.calls < most_calls) }
        ensures err { OnErr result (self.new ≡ self.old) }
    {
        if self.calls >= MOST_CALLS {
            return Err(NoMemory);
        }
        let number = self.ledger.call(alloc, client, &call)?;
        let Ok(()) = self.nodes.push(alloc, client, number, call) else {
            self.ledger.take_back(client);
            return Err(NoMemory);
        };
        self.calls += 1;
        Ok(number)
    }

    /// Puts lines into the text that a step told, and that memory was wanting for. After want of memory they still wait.
    pub fn tell(&mut self, alloc: Global) -> Mem<()>
        requires own { OwnsRest self.old }
        ensures ok { OnOk result (TellsRest self.old self.new) }
        ensures err { OnErr result (self.new ≡ self.old) }
    {
        let Some(untold) = &self.untold else {
            return Ok(());
        };
        let more = text_of(alloc, untold.lines.slice())?;
        self.text.reserve(more.len())?;
        self.ledger.reserve(untold.lines.len())?;
        self.text.extend_from_slice(&more).unwrap();
        if let Some(Untold { client, lines }) = self.untold.take() {
            self.unfinished = self.unfinished || any_unfinished(lines.slice());
            tell_all(&mut self.ledger, client, lines);
        }
        Ok(())
    }

    // A step of this kind was made: a client's read is looked up now, unless the step reads a block.
    fn look(&mut self, client: u8, kind: Kind)
        requires own { client ≤ self.old.ledger.clients }
        ensures ledger { LooksAt (Some kind) self.old.ledger self.new.ledger client }
        ensures same { self.new ≡ record self.old { ledger = self.new.ledger } }
    {
        if kind != Kind::Fetch {
            self.ledger.look(client);
        }
    }

    /// One step of a client: a move inside, one request to one server, or one turn of the file manager. It is `Idle` exactly
    /// where the client has no work, and `Blocked` exactly where its step is a commit, or a lookup that is to hold the file
    /// manager, and another client holds it; else it is `Answered` exactly where the step told lines.
    ///
    /// After a halt nothing has changed but that the client may have memory for its next step; or, where memory was wanting
    /// for their text, the step was made, and its lines wait for `tell`.
    pub fn step(&mut self, alloc: Global, client: u8) -> Result<Step, Halt>
        requires sound { IsSound self.old.nodes }
        requires first { 1 ≤ client }
        requires last { client ≤ length self.old.nodes.clients }
        requires own { client ≤ self.old.ledger.clients }
        requires told { self.old.untold ≡ None }
        ensures ok { IfOk result (StepIs self.old self.new client) }
        ensures idle { IfOk result (λ step. (step ≡ Step.Idle) ↔ (kind_at self.old.nodes (client - 1) ≡ Some Idle)) }
        ensures blocked { IfOk result (λ step. holder_of step ≡ blocker_at self.old.nodes (client - 1)) }
        ensures err { IfErr result (HasHalted self.old self.new client) }
    {
        let kind = self.nodes.kind(client);
        match self.nodes.step(alloc, client)? {
            Moved::Idle => Ok(Step::Idle),
            Moved::Blocked { holder } => Ok(Step::Blocked { holder }),
            Moved::Told(told) => {
                self.look(client, kind);
                let Some(lines) = lines_told(told) else {
                    return Ok(Step::Moved);
                };
                self.untold = Some(Untold { client, lines });
                self.tell(alloc)?;
                Ok(Step::Answered)
            }
        }
    }

    /// A client that has no work begins to commit all that it keeps, at the end of a run.
    pub fn flush(&mut self, client: u8)
        requires first { 1 ≤ client }
        requires last { client ≤ length self.old.nodes.clients }
        requires idle { kind_at self.old.nodes (client - 1) ≡ Some Idle }
        requires keeps { Keeps self.old.nodes (client - 1) }
        ensures { Finishes self.old self.new client }
    {
        self.nodes.flush(client);
    }

    /// The kind of a client's next step, `Idle` where there is none.
    pub fn kind(&self, client: u8) -> Kind
        requires first { 1 ≤ client }
        requires last { client ≤ length self.now.nodes.clients }
        ensures { kind_at self.now.nodes (client - 1) ≡ Some result }
    {
        self.nodes.kind(client)
    }

    /// The client that holds the file manager.
    pub fn holder(&self) -> Option<u8>
        ensures { result ≡ self.now.nodes.manager.holder }
    {
        self.nodes.holder()
    }

    /// Whether a client keeps calls.
    pub fn keeps(&self, client: u8) -> bool
        requires first { 1 ≤ client }
        requires last { client ≤ length self.now.nodes.clients }
        ensures { IsTrue result ↔ Keeps self.now.nodes (client - 1) }
    {
        self.nodes.keeps(client)
    }

    /// Whether a call was told as unfinished.
    pub fn has_unfinished(&self) -> bool
        ensures { result ≡ self.now.unfinished }
    {
        self.unfinished
    }

    /// Whether lines wait for `tell`.
    pub fn is_behind(&self) -> bool
        ensures { result ≡ is_some self.now.untold }
    {
        self.untold.is_some()
    }

    /// The tree that the file manager's tables show, in the order of path bytes, files with their lengths.
    pub fn tree(&self, alloc: Global) -> Mem<TreeList>
        ensures { IfOk result (λ list. (contents : Contents)
            → list ≡ listing (shown_tree self.now.nodes.manager.sizes.block self.now.nodes.manager.tables contents)) }
    {
        self.nodes.tree(alloc)
    }

    /// The updates and the reads that were answered, each in their order.
    pub fn history(&self) -> &History
        ensures updates { result.now.updates.items ≡ self.now.ledger.updates }
        ensures reads { result.now.reads.items ≡ self.now.ledger.answered }
    {
        self.ledger.history()
    }

    /// The text of the lines that weren't handed over.
    pub fn text(&self) -> &[u8]
        ensures { result.now ≡ self.now.text }
    {
        self.text.as_slice()
    }

    /// The text was handed over, and is kept no longer.
    pub fn hand_over(&mut self)
        ensures { self.new ≡ record self.old { text = [] } }
    {
        self.text.clear();
    }
}
