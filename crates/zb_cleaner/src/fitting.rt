ghost use Rattle.std.specs.Prelude.{◌≡◌, ◌+◌, ◌<◌, ◌≤◌, ◌↔◌, IsTrue, true, false, Option};
ghost use Rattle.std.specs.List.{AllByRecursion};
ghost use Rattle.zb_basis.specs.Looking.{room_of};
ghost use Rattle.zb_steps.specs.Serving.{HasMemory};
ghost use Rattle.zb_pass.specs.Copying.{IsBlock};
ghost use Rattle.zb_pass.specs.Serving.{CanServe};
ghost use Rattle.zb_cleaner.specs.Answering.{Answers, AnswersPick, AnswersWork, IsKept, IsOutdated, IsRefusal};

use crate::cleaner::Cleaner;
use crate::steps::Answer;
use zb_delta::Body;
use zb_pass::Work;
use zb_types::{CommitFault, MarkFault, Response, RetireFault, ServerId, StoreFault};
use zb_usage::Chooses;

/// Whether a response isn't a want of memory.
fn has_memory(response: &Response) -> bool
    ensures fits { result ≡ true → HasMemory response.now }
    ensures differs { result ≡ false → ¬ (HasMemory response.now) }
{
    !matches!(response, Response::Refused(StoreFault::NoMemory))
}

/// Whether this may keep a server from being marked.
fn may_refuse(server: ServerId, fault: MarkFault) -> bool
    ensures fits { result ≡ true → IsRefusal server.0 fault }
    ensures differs { result ≡ false → ¬ (IsRefusal server.0 fault) }
{
    match fault {
        MarkFault::Refused { other } => other.0 != server.0,
        MarkFault::Worn => false,
    }
}

/// Whether a batch is behind the members.
fn is_outdated(fault: CommitFault) -> bool
    ensures fits { result ≡ true → IsOutdated fault }
    ensures differs { result ≡ false → ¬ (IsOutdated fault) }
{
    matches!(fault, CommitFault::Regen { .. })
}

/// Whether this may keep a stripe from being retired.
fn is_kept(fault: RetireFault) -> bool
    ensures fits { result ≡ true → IsKept fault }
    ensures differs { result ≡ false → ¬ (IsKept fault) }
{
    matches!(
        fault,
        RetireFault::Mending { .. } | RetireFault::Needed { .. }
    )
}

/// Whether a pointer is to a block of at most so many bytes, in a stripe with this room.
fn is_block(block: u32, room: u32, body: &Body) -> bool
    ensures { IsTrue result ↔ IsBlock room block body.entry.now }
{
    if body.now.len == 0 || body.now.len > block {
        return false;
    }
    u64::from(body.now.offset) + u64::from(body.now.len) <= u64::from(room)
}

/// Whether pointers are to blocks of at most so many bytes, in stripes with this room.
fn are_blocks(block: u32, room: u32, live: &[Body]) -> bool
    ensures { IsTrue result ↔ AllByRecursion (IsBlock room block) live.now }
{
    live.iter().all(|body| is_block(block, room, body))
}

/// Whether this may answer the request of some work.
fn may_serve(work: &Work, response: &Response) -> bool
    ensures fits { result ≡ true → CanServe work.now response.now }
    ensures differs { result ≡ false → ¬ (CanServe work.now response.now) }
{
    match work {
        Work::Fetch { plan, .. } => plan.fits(response) && has_memory(response),
        Work::Store { .. } | Work::Sweep { .. } | Work::Delete { .. } => has_memory(response),
        _ => false,
    }
}

/// Whether this may answer the wish of some work.
fn fits_work(work: &Work, answer: &Answer) -> bool
    ensures fits { result ≡ true → AnswersWork work.now answer.now }
    ensures differs { result ≡ false → ¬ (AnswersWork work.now answer.now) }
{
    match (work, answer) {
        (work, Answer::Server { response, .. }) => may_serve(work, response),
        (Work::Lookup(_), Answer::Seen(_) | Answer::Down | Answer::Doubt) => true,
        (Work::Mark { server, .. }, Answer::NotMarked(fault)) => may_refuse(*server, *fault),
        (Work::Mark { .. }, Answer::Marked | Answer::Down | Answer::Doubt) => true,
        (Work::Commit { .. }, Answer::NotCommitted(fault)) => is_outdated(*fault),
        (Work::Commit { .. }, Answer::Committed { .. } | Answer::Down | Answer::Doubt) => true,
        (Work::Retire { .. }, Answer::NotRetired { fault, .. }) => is_kept(*fault),
        (Work::Retire { .. }, Answer::Retired(_) | Answer::Down | Answer::Doubt) => true,
        _ => false,
    }
}

impl<C: Chooses> Cleaner<C> {
    /// Whether this may answer a pick.
    fn fits_pick(&self, answer: &Answer) -> bool
        ensures fits { result ≡ true → AnswersPick self.now.writer answer.now }
        ensures differs { result ≡ false → ¬ (AnswersPick self.now.writer answer.now) }
    {
        let geo = self.writer.geo();
        let room = (geo.servers - 1) * geo.fragment;
        match answer {
            Answer::Picked { live, .. } => are_blocks(geo.block, room, live.slice()),
            Answer::Down | Answer::Doubt => true,
            _ => false,
        }
    }

    /// Whether this may answer the wish that stands. A server whose disk tells nothing may answer anything, so who asks
    /// one looks first.
    pub fn fits(&self, answer: &Answer) -> bool
        ensures fits { result ≡ true → Answers self.now answer.now }
        ensures differs { result ≡ false → ¬ (Answers self.now answer.now) }
    {
        match &self.work {
            Some(work) => fits_work(work, answer),
            None => self.jobs > 0 && self.fits_pick(answer),
        }
    }
}
