ghost use Rattle.std.specs.Prelude.{◌≡◌, ◌<◌, ◌≤◌, IfOk, IsErrOf, OnErr, length, true, false, [], Option};
ghost use Rattle.zb_log.specs.declared.placed.LogFault.TheVariants.{Worn, NoMemory as OutOfMemory};
ghost use Rattle.zb_work.specs.Fitting.{StepFits};
ghost use Rattle.zb_client.specs.Seen.{at_step};
ghost use Rattle.zb_client.specs.Telling.{Heard, silent, looks_anew};
ghost use Rattle.zb_client.specs.Answering.{Answers, MayWantMemory, brings_bytes};
ghost use Rattle.zb_client.specs.Hearing.{Hears, Wears};
ghost use Rattle.zb_client.specs.Working.{MayGoOn, goes_so};

use crate::client::Client;
use crate::steps::{Answer, Told};
use std::alloc::Global;
use zb_basis::FoundList;
use zb_log::LogFault;
use zb_steps::Next;
use zb_types::{Cause, Response, Said};
use zb_work::{Step, look, put_step, take_step};

impl Client {
    /// The same work goes on at this step.
    fn stand_at(&mut self, step: Step) -> Told
        requires { StepFits self.old.servers self.old.fragment self.old.block self.old.log self.old.kept self.old.queue self.old.doubted step }
        ensures { silent (at_step self.old step) ≡ record { client = self.new; told = result } }
    {
        put_step(&mut self.task, step);
        self.spare = None;
        Told::Nothing
    }

    /// Looks up anew.
    pub(crate) fn look_anew(&mut self) -> Told
        ensures { looks_anew self.old ≡ record { client = self.new; told = result } }
    {
        look(&mut self.task);
        self.spare = None;
        Told::Nothing
    }

    /// The work goes on so.
    fn go_on(&mut self, next: Next) -> Told
        requires ready { self.old.is_ready ≡ true }
        requires may { MayGoOn self.old next }
        ensures { goes_so self.old next ≡ record { client = self.new; told = result } }
    {
        match next {
            Next::Step(step) => self.stand_at(step),
            Next::Reply(reply) => self.answer_read(Said::Reply(reply)),
            Next::Stuck(cause) => self.give_up(cause),
        }
    }

    /// Takes what a lookup found. After an error the client is as before.
    fn hear_found(&mut self, alloc: Global, found: FoundList) -> Result<Told, LogFault>
        requires ready { self.old.is_ready ≡ true }
        requires answers { Answers self.old (Answer.Found found) }
        ensures ok { IfOk result (λ told. Hears self.old (Answer.Found found) (record { client = self.new; told = told })) }
        ensures err { OnErr result (self.new ≡ self.old) }
        ensures worn { IsErrOf result Worn → Wears self.old (Answer.Found found) }
    {
        let next = self.desk.found(alloc, &self.kept, &self.queue, found)?;
        Ok(self.go_on(next))
    }

    /// Takes the response of a server to the request that stands. After an error the client is as before.
    fn hear_server(
        &mut self,
        alloc: Global,
        response: Response,
        serving: u32,
    ) -> Result<Told, LogFault>
        requires ready { self.old.is_ready ≡ true }
        requires answers { Answers self.old (Answer.Server response serving) }
        ensures ok { IfOk result (λ told. Hears self.old (Answer.Server response serving) (record { client = self.new; told = told })) }
        ensures err { OnErr result (self.new ≡ self.old) }
        ensures cause { OnErr result (brings_bytes response ≡ true) }
        ensures worn { IsErrOf result Worn → Wears self.old (Answer.Server response serving) }
    {
        let step = take_step(&mut self.task);
        let served = self
            .desk
            .served(alloc, &self.kept, &self.queue, step, &response, serving);
        drop(response);
        match served {
            Ok(next) => Ok(self.go_on(next)),
            Err((fault, step)) => {
                put_step(&mut self.task, step);
                Err(fault)
            }
        }
    }

    /// Takes the answer to the wish that stands, and tells the lines that come of it. Memory may be wanting for a move
    /// inside, for what a lookup found and for bytes that a fetch brought. `Worn` comes where with this answer all is
    /// there for the next batch, and it goes above the last stripe that a log may have, 2 ^ 48. After an error the client
    /// is as before.
    pub fn hear(&mut self, alloc: Global, answer: Answer) -> Result<Told, LogFault>
        requires ready { self.old.is_ready ≡ true }
        requires answers { Answers self.old answer }
        ensures ok { IfOk result (λ told. Hears self.old answer (record { client = self.new; told = told })) }
        ensures err { OnErr result (self.new ≡ self.old) }
        ensures memory { IsErrOf result OutOfMemory → MayWantMemory answer }
        ensures worn { IsErrOf result Worn → Wears self.old answer }
    {
        match answer {
            Answer::Inside => Ok(self.take_call()?),
            Answer::Server { response, serving } => self.hear_server(alloc, response, serving),
            Answer::Found(found) => self.hear_found(alloc, found),
            Answer::Named(reply) => Ok(self.answer_read(Said::Reply(reply))),
            Answer::Marked => Ok(self.look_anew()),
            Answer::NotMarked(fault) => Ok(self.hear_unmarked(fault)),
            Answer::Committed(replies) => Ok(self.hear_replies(replies)),
            Answer::NotCommitted(fault) => Ok(self.hear_outdated(fault)),
            Answer::Down => Ok(self.give_up(Cause::Down)),
            Answer::Doubt => Ok(self.hear_doubt()),
        }
    }
}
