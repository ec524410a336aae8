ghost use Rattle.std.specs.Prelude.{◌≡◌, Option};
ghost use Rattle.zb_pass.specs.Fitting.{NextFits, WorkFits};
ghost use Rattle.zb_pass.specs.Going.{end_of};
ghost use Rattle.zb_pass.specs.Seen.{SeenWriter};
ghost use Rattle.zb_cleaner.specs.Turned.{looked_for, turned, turned_work};

use crate::steps::Answer;
use zb_pass::{Cleaning, Next, Work};
use zb_types::{Cause, Ended, Pass, RetireFault};

/// What keeps a stripe from being retired.
fn end_of(fault: RetireFault) -> Ended
    ensures { result ≡ end_of fault }
{
    match fault {
        RetireFault::Mending { .. } => Ended::Mending,
        _ => Ended::Needed,
    }
}

/// What a turn makes of some work.
fn turned_work(work: Work, answer: Answer) -> Next
    ensures { result ≡ turned_work work answer }
{
    match answer {
        Answer::Marked => Next::Work(work.look()),
        Answer::NotMarked(fault) => Next::End(work.refused(fault)),
        Answer::Committed { copied, rejected } => Next::Work(work.commit(copied, rejected)),
        Answer::NotCommitted(_) => Next::Work(work.look()),
        Answer::Retired(status) => Next::Work(work.retire(Ended::Retired, status)),
        Answer::NotRetired { fault, status } => Next::Work(work.retire(end_of(fault), status)),
        _ => Next::End(Pass::Failed(Cause::Down)),
    }
}

/// What a turn makes of the work, if there is any.
pub(crate) fn turned(work: Option<Work>, answer: Answer) -> Next
    ensures { result ≡ turned work answer }
{
    match work {
        Some(work) => turned_work(work, answer),
        None => Next::End(Pass::Failed(Cause::Down)),
    }
}

/// What is looked up anew, where a lookup stands.
pub(crate) fn looked_for(work: Option<Work>) -> Option<Cleaning>
    ensures { result ≡ looked_for work }
{
    let work = work?;
    match work {
        Work::Lookup(cleaning) => Some(cleaning),
        _other => None,
    }
}
