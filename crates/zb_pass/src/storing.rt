ghost use Rattle.std.specs.Prelude.{◌≡◌, All, Some, true, false};
ghost use Rattle.zb_stripe.specs.Feeding.{fed_by};
ghost use Rattle.zb_log.specs.Logs.{ForGiven, IsSealed, gone_on};
ghost use Rattle.zb_basis.specs.Delivering.{IsAbout};
ghost use Rattle.zb_work.specs.Fitting.{IsNewOf, IsBehind};
ghost use Rattle.zb_steps.specs.Serving.{first_stripe};
ghost use Rattle.zb_pass.specs.Going.{Onward, flushes, works};

use crate::work::{Cleaning, Next, Work};
use crate::writer::Writer;
use zb_basis::{Formed, Sealed, stripe_of};
use zb_stripe::{Fed, FreshFlush, WritePlan};
use zb_types::{Cause, Pass, Response};
use zb_work::Flushed;

/// The stripe of the first request of a plan.
fn first_stripe(plan: &WritePlan) -> u64
    ensures { result ≡ first_stripe plan.now }
{
    match plan.next() {
        Some((_, request)) => stripe_of(request),
        None => 0,
    }
}

impl Writer {
    /// The batch is stored: the log goes on behind it, and it is to be committed.
    fn stored(&mut self, cleaning: Cleaning, sealed: Sealed, fresh: FreshFlush) -> Next
        requires sealed { IsSealed self.old.log sealed.placed fresh }
        requires flush { ForGiven self.old.log (IsNewOf self.old.servers self.old.fragment self.old.log sealed.placed fresh) }
        ensures { works (record self.old {
          log = gone_on self.old.log sealed.placed.next fresh.parts;
          flushed = Some (record { generation = sealed.members.generation; stripe = sealed.placed.next.stripe; ended = true });
        }) (Work.Commit cleaning sealed) ≡ record { writer = self.new; next = result } }
    {
        self.log.go_on(&sealed.placed, fresh);
        self.flushed = Some(Flushed {
            generation: sealed.members.generation,
            stripe: sealed.placed.next.stripe,
            ended: true,
        });
        Next::Work(Work::Commit { cleaning, sealed })
    }

    /// Notes a request of a flush that was answered.
    fn note(&mut self, generation: u64, stripe: u64)
        requires { IsBehind self.old.log (record { generation = generation; stripe = stripe; ended = false }) }
        ensures { self.new ≡ record self.old { flushed = Some (record { generation = generation; stripe = stripe; ended = false }) } }
    {
        self.flushed = Some(Flushed {
            generation,
            stripe,
            ended: false,
        });
    }

    /// Goes on with what a response made of a flush.
    pub(crate) fn store_on(
        &mut self,
        cleaning: Cleaning,
        formed: Formed,
        response: &Response,
    ) -> Next
        requires sealed { IsSealed self.old.log formed.sealed.placed formed.fresh }
        requires about { ForGiven self.old.log (λ given. All (λ asked. IsAbout self.old.log.next.stripe formed.sealed.placed.next.stripe asked.1) formed.plan) }
        requires flush { ForGiven self.old.log (IsNewOf self.old.servers self.old.fragment self.old.log formed.sealed.placed formed.fresh) }
        ensures { flushes self.old cleaning formed response.now ≡ record { writer = self.new; next = result } }
    {
        self.knows();
        let Formed {
            sealed,
            fresh,
            plan,
        } = formed;
        let mut plan = plan;
        let stripe = first_stripe(&plan);
        let fed = plan.feed(response);
        if let Fed::Done = fed {
            return self.stored(cleaning, sealed, fresh);
        }
        let generation = sealed.members.generation;
        self.note(generation, stripe);
        match fed {
            Fed::Down { server } => Next::Work(Work::Mark {
                cleaning,
                server,
                generation,
            }),
            Fed::NoSpace { server, .. } => Next::End(Pass::Failed(Cause::NoSpace { server })),
            Fed::Old { .. } => Next::Work(Work::Lookup(cleaning)),
            _ => {
                let formed = Formed {
                    sealed,
                    fresh,
                    plan,
                };
                Next::Work(Work::Store { cleaning, formed })
            }
        }
    }
}
