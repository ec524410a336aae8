ghost use Rattle.std.specs.Prelude.{◌≡◌, ◌+◌, ◌<◌, ◌≤◌, true, false, None, length, Option};
ghost use Rattle.zb_basis.specs.Looking.{room_of};
ghost use Rattle.zb_work.specs.Steps.{step_of};
ghost use Rattle.zb_work.specs.Fitting.{FoundFor};
ghost use Rattle.zb_client.specs.Calling.{ReadsNames};
ghost use Rattle.zb_client.specs.Wishing.{lookup_of};
ghost use Rattle.zb_client.specs.Answering.{Answers, AnswersLookup, AnswersStep, HasMemory, IsRefusal, IsOutdated};

use crate::client::Client;
use crate::steps::Answer;
use zb_types::{Call, CommitFault, Found, MarkFault, Response, ServerId, StoreFault};
use zb_work::{Step, fits_batch, fits_read};

/// Whether a response isn't a want of memory.
fn has_memory(response: &Response) -> bool
    ensures fits { result ≡ true → HasMemory response.now }
    ensures differs { result ≡ false → ¬ (HasMemory response.now) }
{
    !matches!(response, Response::Refused(StoreFault::NoMemory))
}

/// Whether this may keep a server from being marked.
fn may_refuse(server: ServerId, fault: MarkFault) -> bool
    ensures fits { result ≡ true → IsRefusal server.0 fault }
    ensures differs { result ≡ false → ¬ (IsRefusal server.0 fault) }
{
    match fault {
        MarkFault::Refused { other } => other.0 != server.0,
        MarkFault::Worn => false,
    }
}

/// Whether a batch is behind the members, or behind a version.
fn is_outdated(fault: CommitFault) -> bool
    ensures fits { result ≡ true → IsOutdated fault }
    ensures differs { result ≡ false → ¬ (IsOutdated fault) }
{
    matches!(fault, CommitFault::Regen { .. } | CommitFault::Stale { .. })
}

impl Client {
    /// Whether this may be found for the next batch, or else for the read.
    fn fits_found(&self, found: &[Found]) -> bool
        ensures fits { result ≡ true → FoundFor self.now.block (room_of self.now.servers self.now.fragment) self.now.kept self.now.queue found.now }
        ensures differs { result ≡ false → ¬ (FoundFor self.now.block (room_of self.now.servers self.now.fragment) self.now.kept self.now.queue found.now) }
    {
        let geo = self.desk.geo();
        let room = (geo.servers - 1) * geo.fragment;
        if !self.kept.is_empty() {
            return fits_batch(geo.block, room, self.run(), found);
        }
        match self.queue.front() {
            Some(read) => fits_read(geo.block, room, &read.call, found),
            None => false,
        }
    }

    /// Whether the lookup that stands reads names.
    fn reads_names(&self) -> bool
        ensures fits { result ≡ true → ReadsNames (lookup_of self.now 0 self.now.kept) }
        ensures differs { result ≡ false → ¬ (ReadsNames (lookup_of self.now 0 self.now.kept)) }
    {
        if !self.kept.is_empty() {
            return false;
        }
        match self.queue.front() {
            Some(read) => !matches!(read.call, Call::Read { .. }),
            None => false,
        }
    }

    /// Whether this may answer the lookup that stands.
    fn fits_lookup(&self, tries: u32, answer: &Answer) -> bool
        ensures fits { result ≡ true → AnswersLookup self.now (lookup_of self.now tries self.now.kept) answer.now }
        ensures differs { result ≡ false → ¬ (AnswersLookup self.now (lookup_of self.now tries self.now.kept) answer.now) }
    {
        match answer {
            Answer::Found(found) => { self.doubted == 0 && self.fits_found(found.slice()) }
            Answer::Named(_) => self.reads_names(),
            Answer::Down | Answer::Doubt => true,
            _ => false,
        }
    }

    /// Whether this may answer a step's wish.
    fn fits_step(&self, tries: u32, step: &Step, answer: &Answer) -> bool
        ensures fits { result ≡ true → AnswersStep self.now tries step.now answer.now }
        ensures differs { result ≡ false → ¬ (AnswersStep self.now tries step.now answer.now) }
    {
        match (step, answer) {
            (Step::Lookup, answer) => self.fits_lookup(tries, answer),
            (Step::Fetch { plan, .. }, Answer::Server { response, .. }) => {
                plan.fits(response) && has_memory(response)
            }
            (Step::Store { .. }, Answer::Server { response, .. }) => has_memory(response),
            (Step::Mark { server, .. }, Answer::NotMarked(fault)) => may_refuse(*server, *fault),
            (Step::Mark { .. }, Answer::Marked | Answer::Down | Answer::Doubt) => true,
            (Step::Commit { sealed, .. }, Answer::Committed(replies)) => {
                replies.len() == sealed.batch.ops.len()
            }
            (Step::Commit { .. }, Answer::NotCommitted(fault)) => is_outdated(*fault),
            (Step::Commit { .. }, Answer::Down | Answer::Doubt) => true,
            _ => false,
        }
    }

    /// Whether this may answer the wish that stands. A server whose disk tells nothing may answer anything, so who asks
    /// one looks first.
    pub fn fits(&self, answer: &Answer) -> bool
        ensures fits { result ≡ true → Answers self.now answer.now }
        ensures differs { result ≡ false → ¬ (Answers self.now answer.now) }
    {
        match &self.task {
            Some(task) => self.fits_step(task.tries, &task.step, answer),
            None => matches!(answer, Answer::Inside) && !self.queue.is_empty(),
        }
    }
}
