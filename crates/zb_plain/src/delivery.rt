ghost use Rattle.std.specs.Prelude.{◌≡◌, ℕ, List, ◌+◌, ◌-◌, ◌*◌, ◌<◌, ◌≤◌, All, length, take, drop, None, IsSome, IsSomeAnd, slice_get, IfOk, OnOk, OnErr};
ghost use Rattle.zb_holding.specs.Holding.{StripeHolds};
ghost use Rattle.zb_holding.specs.Carrying.{carried_all};
ghost use Rattle.zb_stripe.specs.declared.flush.Flush.{Flush};
ghost use Rattle.zb_stripe.specs.Writing.{plan_requests};
ghost use Rattle.zb_stripe.specs.Fresh.{IsFreshFlush, HasRoom};
ghost use Rattle.zb_stripe.specs.Reading.{start, asked};
ghost use Rattle.zb_plain.specs.Standing.{maps_of, seen_at};
ghost use Rattle.zb_plain.specs.Indexed.{AllFitIndex};
ghost use Rattle.zb_plain.specs.Delivering.{IsBegun, IsTaken, IsFed, ComesTo, MayWrite};

use crate::servers::PlainServers;
use std::alloc::Global;
use zb_stripe::{FreshFlush, Got, ReadPlan, WritePlan};
use zb_stripe_laws::read_gives_bytes;
use zb_types::{Class, Geometry, Mem, Ptr};

impl PlainServers {
    /// Carries out the request that stands.
    fn deliver(&mut self, alloc: Global, plan: &mut WritePlan) -> Mem<()>
        requires { IsSomeAnd (slice_get plan.old 0) (IsTaken self.old) }
        ensures ok { OnOk result (maps_of self.new ≡ carried_all (maps_of self.old) (take 1 plan.old)) }
        ensures left { OnOk result (plan.new ≡ drop 1 plan.old) }
        ensures err { OnErr result (self.new ≡ self.old) }
        ensures count { length self.new ≡ length self.old }
    {
        let Some((server, request)) = plan.next() else {
            return Ok(());
        };
        let answer = self.serve(alloc, server, request)?;
        plan.feed(&answer);
        Ok(())
    }

    /// Carries out the requests that write what is new of a flush, in order, with no server left away. Where memory runs
    /// out, the first of them are carried out.
    pub fn write(
        &mut self,
        alloc: Global,
        geo: &Geometry,
        fresh: &FreshFlush,
        class: Class,
    ) -> Mem<()>
        requires servers { length self.old ≡ geo.now.servers }
        requires fits { All (HasRoom ((geo.now.servers - 1) * geo.now.fragment)) fresh.now.parts }
        requires may { MayWrite geo.now self.old fresh.now }
        ensures ok { OnOk result ((flush : Flush) → IsFreshFlush geo.now.servers geo.now.fragment flush fresh.now
            → maps_of self.new ≡ carried_all (maps_of self.old) (plan_requests geo.now.servers geo.now.fragment None class flush)) }
        ensures err { OnErr result ((flush : Flush) → IsFreshFlush geo.now.servers geo.now.fragment flush fresh.now
            → IsBegun (maps_of self.old) (maps_of self.new) (plan_requests geo.now.servers geo.now.fragment None class flush)) }
        ensures count { length self.new ≡ length self.old }
    {
        let mut plan = WritePlan::new(alloc, geo, fresh, None, class)?;
        'requests: while plan.next().is_some() {
            self.deliver(alloc, &mut plan)?;
        }
        Ok(())
    }

    /// Asks what a read asks for.
    fn ask(&mut self, alloc: Global, plan: &mut ReadPlan) -> Mem<Got>
        requires servers { length self.old ≡ plan.old.servers }
        requires some { 0 < plan.old.servers }
        requires fit { AllFitIndex plan.old.servers (maps_of self.old) }
        requires stands { IsSome (asked plan.old) }
        ensures fed { IfOk result (IsFed (maps_of self.old) plan.old plan.new) }
        ensures same { self.new ≡ self.old }
        ensures servers { plan.new.servers ≡ plan.old.servers }
    {
        let Some((server, request)) = plan.next() else {
            return Ok(Got::More);
        };
        let answer = self.serve(alloc, server, request)?;
        plan.feed(alloc, &answer)
    }

    /// What reading a pointer comes to: its bytes, where its stripe is committed that far.
    pub fn read(&mut self, alloc: Global, geo: &Geometry, ptr: &Ptr) -> Mem<Got>
        requires servers { length self.old ≡ geo.now.servers }
        requires some { 0 < ptr.now.len }
        requires room { ptr.now.offset + ptr.now.len ≤ (geo.now.servers - 1) * geo.now.fragment }
        requires fit { AllFitIndex geo.now.servers (maps_of self.old) }
        ensures bytes { (end : ℕ) (bytes : List ℕ) → ptr.now.offset + ptr.now.len ≤ end
            → StripeHolds (seen_at geo.now self.old) ptr.now.log ptr.now.stripe end bytes
            → IfOk result (λ got. got ≡ Got.Bytes (take ptr.now.len (drop ptr.now.offset bytes))) }
        ensures answers { IfOk result
            (ComesTo (maps_of self.old) (start geo.now.servers geo.now.fragment ptr.now None)) }
        ensures same { self.new ≡ self.old }
    {
        read_gives_bytes();
        let mut plan = ReadPlan::new(alloc, geo, ptr, None)?;
        let most = (u64::from(ptr.len) + 1) * u64::from(geo.servers + 2);
        'answers: for _ in 0..most {
            match self.ask(alloc, &mut plan)? {
                Got::More => {}
                got => return Ok(got),
            }
        }
        Ok(Got::More)
    }
}
