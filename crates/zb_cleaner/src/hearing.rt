ghost use Rattle.std.specs.Prelude.{◌≡◌, ◌<◌, IfOk, IsErrOf, OnErr, true, Option, Some};
ghost use Rattle.zb_log.specs.declared.placed.LogFault.TheVariants.{Worn, NoMemory as OutOfMemory};
ghost use Rattle.zb_steps.specs.Serving.{brings_bytes};
ghost use Rattle.zb_cleaner.specs.Answering.{Answers, MayWantMemory};
ghost use Rattle.zb_cleaner.specs.Hearing.{Hears, Wears};
ghost use Rattle.zb_cleaner.specs.Turned.{IsTurn};

use crate::cleaner::Cleaner;
use crate::steps::{Answer, Told};
use crate::turned::{looked_for, turned};
use std::alloc::Global;
use zb_log::LogFault;
use zb_pass::{BodyList, Next, Work};
use zb_types::{Cause, Mem, Members, Pass, Response, Status};
use zb_usage::Chooses;

impl<C: Chooses> Cleaner<C> {
    /// Picks a stripe by a status and the pointers into the held stripes. After want of memory the cleaner is as before.
    fn hear_picked(&mut self, alloc: Global, status: Status, live: BodyList) -> Mem<Told>
        requires ready { self.old.is_ready ≡ true }
        requires answers { Answers self.old (Answer.Picked status live) }
        ensures ok { IfOk result (λ told. Hears self.old (Answer.Picked status live) (record { cleaner = self.new; told = told })) }
        ensures err { OnErr result (self.new ≡ self.old) }
    {
        let work = self.writer.pick(alloc, &self.policy, status, live.slice())?;
        Ok(self.go_on(Next::Work(work)))
    }

    /// Takes the members that a lookup showed. After an error the cleaner is as before.
    fn hear_seen(&mut self, alloc: Global, members: Members) -> Result<Told, LogFault>
        requires ready { self.old.is_ready ≡ true }
        requires answers { Answers self.old (Answer.Seen members) }
        ensures ok { IfOk result (λ told. Hears self.old (Answer.Seen members) (record { cleaner = self.new; told = told })) }
        ensures err { OnErr result (self.new ≡ self.old) }
        ensures worn { IsErrOf result Worn → Wears self.old (Answer.Seen members) }
    {
        self.knows();
        let Some(cleaning) = looked_for(self.take_work()) else {
            return Ok(self.end_pass(Pass::Failed(Cause::Down)));
        };
        match self.writer.seen(alloc, cleaning, members) {
            Ok(work) => Ok(self.go_on(Next::Work(work))),
            Err((fault, cleaning)) => {
                self.put_work(Work::Lookup(cleaning));
                Err(fault)
            }
        }
    }

    /// Takes the response of a server to the request that stands. After an error the cleaner is as before.
    fn hear_server(
        &mut self,
        alloc: Global,
        response: Response,
        serving: u32,
    ) -> Result<Told, LogFault>
        requires ready { self.old.is_ready ≡ true }
        requires answers { Answers self.old (Answer.Server response serving) }
        ensures ok { IfOk result (λ told. Hears self.old (Answer.Server response serving) (record { cleaner = self.new; told = told })) }
        ensures err { OnErr result (self.new ≡ self.old) }
        ensures cause { OnErr result (brings_bytes response ≡ true) }
        ensures worn { IsErrOf result Worn → Wears self.old (Answer.Server response serving) }
    {
        self.knows();
        let Some(work) = self.take_work() else {
            return Ok(self.end_pass(Pass::Failed(Cause::Down)));
        };
        match self.writer.served(alloc, work, response, serving) {
            Ok(next) => Ok(self.go_on(next)),
            Err((fault, work)) => {
                self.put_work(work);
                Err(fault)
            }
        }
    }

    /// Takes what a turn came to.
    fn hear_turn(&mut self, answer: Answer) -> Told
        requires ready { self.old.is_ready ≡ true }
        requires turn { IsTurn answer }
        requires answers { Answers self.old answer }
        ensures { Hears self.old answer (record { cleaner = self.new; told = result }) }
    {
        self.knows();
        let next = turned(self.take_work(), answer);
        self.go_on(next)
    }

    /// Takes the answer to the wish that stands, and tells the line of a pass that ends with it. It ends the readiness.
    /// Memory may be wanting for a pick, for what a lookup showed, and for bytes that a fetch brought; `Worn` comes where
    /// with the answer all blocks of a pass have come, and their batch can't be spelled in four bytes of length, or goes
    /// above the last stripe that a log may have, 2 ^ 48. After an error the cleaner is as before.
    pub fn hear(&mut self, alloc: Global, answer: Answer) -> Result<Told, LogFault>
        requires ready { self.old.is_ready ≡ true }
        requires answers { Answers self.old answer }
        ensures ok { IfOk result (λ told. Hears self.old answer (record { cleaner = self.new; told = told })) }
        ensures err { OnErr result (self.new ≡ self.old) }
        ensures memory { IsErrOf result OutOfMemory → MayWantMemory answer }
        ensures worn { IsErrOf result Worn → Wears self.old answer }
    {
        match answer {
            Answer::Picked { status, live } => Ok(self.hear_picked(alloc, status, live)?),
            Answer::Server { response, serving } => self.hear_server(alloc, response, serving),
            Answer::Seen(members) => self.hear_seen(alloc, members),
            other => Ok(self.hear_turn(other)),
        }
    }
}
