ghost use Rattle.std.specs.Prelude.{◌≡◌, ◌≤◌, IfOk, IfErr, IfSome, OnErr, IsErrOf, Option};
ghost use Rattle.zb_log.specs.Logs.{SeenLog};
ghost use Rattle.zb_log.specs.Placing.{last_stripe};
ghost use Rattle.zb_log.specs.declared.placed.LogFault.TheVariants.{Worn};
ghost use Rattle.zb_basis.specs.Forming.{log_from};
ghost use Rattle.zb_work.specs.Fitting.{IsBehind};
ghost use Rattle.zb_steps.specs.Desks.{HasGiven};
ghost use Rattle.zb_steps.specs.Going.{behind};
ghost use Rattle.std.specs.List.{AllByRecursion};
ghost use Rattle.zb_basis.specs.Looking.{room_of};
ghost use Rattle.zb_pass.specs.Copying.{next_body, IsBlock, IsLive};
ghost use Rattle.zb_pass.specs.Forming.{IsFormed};
ghost use Rattle.zb_pass.specs.Fitting.{IsCleaning, Fits};
ghost use Rattle.zb_pass.specs.Seen.{log_for};
ghost use Rattle.zb_pass.specs.Going.{PickGives, GoesOn, CannotGo, begins, works, with_members};
ghost use Rattle.zb_pass.specs.Sweeping.{sweeps};
ghost use Rattle.zb_pass.specs.Ahead.{IsAhead, goes_on};

use crate::forming::form;
use crate::picking::{choose, live_of, target_of};
use crate::work::{Ahead, BlocksList, BodyList, Cleaning, Copies, Sweeping, Target, Work};
use crate::writer::Writer;
use std::alloc::Global;
use zb_basis::{Formed, Setting, readers_out};
use zb_delta::Body;
use zb_log::{LogBuf, LogFault};
use zb_stripe::ReadPlan;
use zb_types::{Geometry, Mem, Members, NoMemory, Pass, Ptr, ServerId, Status};
use zb_usage::Chooses;
use zb_work::Flushed;

/// Where the log goes on in this generation: behind the last stripe of its last flush, where the generation is another
/// than that one's, or it didn't reach its end.
fn behind(flushed: &Option<Flushed>, generation: u64) -> Option<u64>
    ensures behind { result ≡ behind flushed.now generation }
    ensures lasting { (log : SeenLog) → IfSome flushed.now (IsBehind log) → IfSome result (λ last. last ≤ last_stripe) }
{
    match flushed {
        Some(last) if last.ended && last.generation == generation => None,
        Some(last) => Some(last.stripe),
        None => None,
    }
}

/// The log goes on there.
fn renew(log: &mut LogBuf, flushed: &Option<Flushed>, generation: u64)
    requires { IfSome flushed.now (IsBehind log.old) }
    ensures renewed { log.new ≡ log_from log.old (behind flushed.now generation) }
    ensures behind { IfSome flushed.now (IsBehind log.new) }
    ensures given { HasGiven log.old → HasGiven log.new }
{
    if let Some(last) = behind(flushed, generation) {
        log.next_stripe(last);
    }
}

/// What a pass does first that cleans a stripe with these pointers into it.
fn begins(
    alloc: Global,
    geo: &Geometry,
    target: Target,
    members: Members,
    live: BodyList,
) -> Mem<Work>
    requires { AllByRecursion (IsLive (room_of geo.now.servers geo.now.fragment) geo.now.block target) live }
    ensures { IfOk result (λ work. work ≡ begins geo.now.servers geo.now.fragment target members live) }
{
    let Some(body) = live.get(0) else {
        return Ok(Work::Retire {
            target,
            copied: 0,
            rejected: 0,
        });
    };
    let plan = ReadPlan::new(alloc, geo, &body.now, readers_out(&members))?;
    let copies = Copies {
        live,
        blocks: BlocksList::new(alloc)?,
    };
    Ok(Work::Fetch {
        cleaning: Cleaning {
            target,
            members,
            copies,
        },
        plan,
    })
}

/// The strays by a status are swept, from the first server on.
pub(crate) fn sweeps(line: Pass, status: Status) -> Work
    ensures { result ≡ sweeps line status }
{
    Work::Sweep {
        sweep: Sweeping {
            line,
            status,
            server: ServerId(1),
        },
        after: None,
    }
}

impl Writer {
    /// The batch of a pass whose blocks have all come.
    fn formed(&self, alloc: Global, cleaning: &Cleaning) -> Result<Formed, LogFault>
        requires cleaning { IsCleaning self.now.servers self.now.fragment self.now.block cleaning.now }
        requires all { next_body cleaning.now.copies ≡ None }
        ensures formed { IfOk result (IsFormed self.now.servers self.now.fragment (log_for self.now cleaning.now.members.generation) cleaning.now.target.number cleaning.now.members cleaning.now.copies) }
        ensures worn { IsErrOf result Worn → CannotGo self.now cleaning.now }
    {
        let to = Setting {
            geo: self.geo,
            log: self.id,
            number: cleaning.target.number,
            members: cleaning.members,
            behind: behind(&self.flushed, cleaning.members.generation),
        };
        form(alloc, &self.log, &to, &cleaning.copies)
    }

    /// What lies ahead of a pass with the blocks that have come.
    pub(crate) fn ahead(&self, alloc: Global, cleaning: &Cleaning) -> Result<Ahead, LogFault>
        requires { IsCleaning self.now.servers self.now.fragment self.now.block cleaning.now }
        ensures ok { IfOk result (IsAhead self.now cleaning.now) }
        ensures worn { IsErrOf result Worn → CannotGo self.now cleaning.now }
    {
        let copies = &cleaning.copies;
        if let Some(body) = copies.live.get(copies.blocks.len()) {
            let out = readers_out(&cleaning.members);
            let plan = ReadPlan::new(alloc, &self.geo, &body.now, out)?;
            return Ok(Ahead::Fetch(plan));
        }
        Ok(Ahead::Store(self.formed(alloc, cleaning)?))
    }

    /// Goes on so. For a batch the log goes on where the batch has its place.
    pub(crate) fn go_on(&mut self, cleaning: Cleaning, ahead: Ahead) -> Work
        ensures { goes_on self.old cleaning ahead ≡ works self.new result }
    {
        match ahead {
            Ahead::Fetch(plan) => Work::Fetch { cleaning, plan },
            Ahead::Store(formed) => {
                renew(&mut self.log, &self.flushed, cleaning.members.generation);
                Work::Store { cleaning, formed }
            }
        }
    }

    /// Picks a stripe by the policy, among those that a status and the pointers into the held stripes show as worth
    /// cleaning, and begins to clean it. Where there is none, strays are swept.
    pub fn pick<C: Chooses>(
        &self,
        alloc: Global,
        policy: &C,
        status: Status,
        live: &[Body],
    ) -> Mem<Work>
        requires { AllByRecursion (IsBlock (room_of self.now.servers self.now.fragment) self.now.block) live.now }
        ensures ok { IfOk result (PickGives self.now status live.now) }
        ensures fits { IfOk result (Fits self.now.servers self.now.fragment self.now.block self.now.log) }
    {
        let Some(chosen) = choose(alloc, policy, &status, live)? else {
            return Ok(sweeps(Pass::Nothing, status));
        };
        let target = target_of(self.id, &status, &chosen);
        let found = live_of(alloc, chosen.log, chosen.stripe, live)?;
        begins(alloc, &self.geo, target, status.members, found)
    }

    /// Takes the members that a lookup showed. `Worn` comes where all blocks have come, and their batch can't be spelled
    /// or goes above the last stripe that a log may have, 2 ^ 48. After an error the writer is as before, and the pass is
    /// handed back.
    pub fn seen(
        &mut self,
        alloc: Global,
        cleaning: Cleaning,
        members: Members,
    ) -> Result<Work, (LogFault, Cleaning)>
        requires { IsCleaning self.old.servers self.old.fragment self.old.block cleaning }
        ensures ok { IfOk result (λ work. GoesOn self.old (with_members cleaning members) (works self.new work)) }
        ensures fits { IfOk result (Fits self.new.servers self.new.fragment self.new.block self.new.log) }
        ensures err { OnErr result (self.new ≡ self.old) }
        ensures back { IfErr result (λ e. e.1 ≡ cleaning) }
        ensures worn { IfErr result (λ e. e.0 ≡ Worn → CannotGo self.old (with_members cleaning members)) }
    {
        self.knows();
        let Cleaning {
            target,
            members: before,
            copies,
        } = cleaning;
        let cleaning = Cleaning {
            target,
            members,
            copies,
        };
        match self.ahead(alloc, &cleaning) {
            Ok(ahead) => Ok(self.go_on(cleaning, ahead)),
            Err(fault) => Err((
                fault,
                Cleaning {
                    members: before,
                    ..cleaning
                },
            )),
        }
    }
}
