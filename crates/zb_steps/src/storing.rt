ghost use Rattle.std.specs.Prelude.{◌≡◌, ℕ, List, ◌+◌, ◌<◌, ◌≤◌, All, IfOk, IfErr, OnErr, length, true, false, Option, Some};
ghost use Rattle.zb_types.specs.Apply.{is_update};
ghost use Rattle.zb_types.specs.declared.ids.ServerId.{ServerId};
ghost use Rattle.zb_types.specs.declared.requests.Request.{Request};
ghost use Rattle.zb_stripe.specs.Feeding.{fed_by};
ghost use Rattle.zb_log.specs.declared.placed.LogFault.TheVariants.{Worn};
ghost use Rattle.zb_log.specs.Logs.{ForGiven, IsSealed, gone_on};
ghost use Rattle.zb_basis.specs.Delivering.{IsAbout};
ghost use Rattle.zb_work.specs.Fitting.{StepFits, IsNewOf, IsBehind};
ghost use Rattle.zb_steps.specs.Going.{Onward, NextFits, steps};
ghost use Rattle.zb_steps.specs.Serving.{HasMemory, CanServe, ServerGives, ServerWears, brings_bytes, first_stripe, notes, stores_on, flushes};

use crate::desk::Desk;
use crate::next::{Fetching, Next};
use std::alloc::Global;
use std::collections::VecDeque;
use zb_basis::{Basis, Formed, Numbered, Sealed, stripe_of};
use zb_log::LogFault;
use zb_stripe::{Fed, FreshFlush, WritePlan};
use zb_types::{Cause, Response};
use zb_work::{Flushed, Step};

/// The stripe of the first request of a plan.
fn first_stripe(plan: &WritePlan) -> u64
    ensures { result ≡ first_stripe plan.now }
{
    match plan.next() {
        Some((_, request)) => stripe_of(request),
        None => 0,
    }
}

impl Desk {
    /// The batch is stored: the log goes on behind it, and it is to be committed.
    fn stored(&mut self, basis: Basis, sealed: Sealed, fresh: FreshFlush) -> Next
        requires sealed { IsSealed self.old.log sealed.placed fresh }
        requires flush { ForGiven self.old.log (IsNewOf self.old.servers self.old.fragment self.old.log sealed.placed fresh) }
        ensures { steps (record self.old {
          log = gone_on self.old.log sealed.placed.next fresh.parts;
          flushed = Some (record { generation = sealed.members.generation; stripe = sealed.placed.next.stripe; ended = true });
        }) (Step.Commit basis sealed) ≡ record { desk = self.new; next = result } }
    {
        self.log.go_on(&sealed.placed, fresh);
        self.flushed = Some(Flushed {
            generation: sealed.members.generation,
            stripe: sealed.placed.next.stripe,
            ended: true,
        });
        Next::Step(Step::Commit { basis, sealed })
    }

    /// Notes a request of a flush that was answered.
    fn note(&mut self, generation: u64, stripe: u64)
        requires { IsBehind self.old.log (record { generation = generation; stripe = stripe; ended = false }) }
        ensures { self.new ≡ record self.old { flushed = Some (record { generation = generation; stripe = stripe; ended = false }) } }
    {
        self.flushed = Some(Flushed {
            generation,
            stripe,
            ended: false,
        });
    }

    /// Goes on with what a response made of a flush.
    fn store_on(&mut self, basis: Basis, formed: Formed, response: &Response) -> Next
        requires sealed { IsSealed self.old.log formed.sealed.placed formed.fresh }
        requires about { ForGiven self.old.log (λ given. All (λ asked. IsAbout self.old.log.next.stripe formed.sealed.placed.next.stripe asked.1) formed.plan) }
        requires flush { ForGiven self.old.log (IsNewOf self.old.servers self.old.fragment self.old.log formed.sealed.placed formed.fresh) }
        ensures { flushes self.old basis formed response.now ≡ record { desk = self.new; next = result } }
    {
        self.knows();
        let Formed {
            sealed,
            fresh,
            plan,
        } = formed;
        let mut plan = plan;
        let stripe = first_stripe(&plan);
        let fed = plan.feed(response);
        if let Fed::Done = fed {
            return self.stored(basis, sealed, fresh);
        }
        let generation = sealed.members.generation;
        self.note(generation, stripe);
        match fed {
            Fed::Down { server } => Next::Step(Step::Mark { server, generation }),
            Fed::NoSpace { server, .. } => Next::Stuck(Cause::NoSpace { server }),
            Fed::Old { .. } => Next::Step(Step::Lookup),
            _ => {
                let formed = Formed {
                    sealed,
                    fresh,
                    plan,
                };
                Next::Step(Step::Store { basis, formed })
            }
        }
    }

    /// Takes the response to the request that stands at a fetch or a store. Memory may be wanting for bytes that a fetch
    /// brought; `Worn` comes where with them all blocks are there, and the batch goes above the last stripe that a log
    /// may have, 2 ^ 48. After an error the desk is as before, and the step is handed back.
    pub fn served(
        &mut self,
        alloc: Global,
        kept: &[Numbered],
        queue: &VecDeque<Numbered>,
        step: Step,
        response: &Response,
        serving: u32,
    ) -> Result<Next, (LogFault, Step)>
        requires updates { All (λ call. is_update call.call ≡ true) kept.now }
        requires fits { StepFits self.old.servers self.old.fragment self.old.block self.old.log kept.now queue.now.items 0 step }
        requires can { CanServe step response.now }
        ensures ok { IfOk result (λ next. ServerGives self.old kept.now queue.now.items step response.now serving (record { desk = self.new; next = next })) }
        ensures fits { IfOk result (NextFits self.new kept.now queue.now.items) }
        ensures err { OnErr result (self.new ≡ self.old) }
        ensures back { IfErr result (λ e. e.1 ≡ step) }
        ensures cause { OnErr result (brings_bytes response.now ≡ true) }
        ensures worn { IfErr result (λ e. e.0 ≡ Worn → ServerWears self.old kept.now step response.now) }
    {
        self.knows();
        match step {
            Step::Fetch {
                basis,
                at,
                ptr,
                plan,
            } => {
                let read = Fetching {
                    basis,
                    at,
                    ptr,
                    plan,
                };
                match self.fetched(alloc, kept, queue, read, response, serving) {
                    Ok(next) => Ok(next),
                    Err((fault, read)) => Err((fault, read.step())),
                }
            }
            Step::Store { basis, formed } => Ok(self.store_on(basis, formed, response)),
            other => Ok(Next::Step(other)),
        }
    }
}
