use zb_basis::{Basis, Formed};
use zb_stripe::ReadPlan;
use zb_types::{Cause, Ptr, Reply};
use zb_work::Step;

/// How a client's work goes on.
#[derive(Drop)]
pub enum Next {
    /// At this step.
    Step(Step),
    /// The read is answered so.
    Reply(Reply),
    /// It can't go on.
    Stuck(Cause),
}

/// How a batch or a read goes on with the blocks that are there, with all the memory that it takes.
#[derive(Drop)]
pub(crate) enum Ahead {
    Fetch { at: usize, ptr: Ptr, plan: ReadPlan },
    Store(Formed),
    Reply(Reply),
}

/// The first block that is missing, and what reads it.
#[derive(Drop)]
pub(crate) struct Fetching {
    pub(crate) basis: Basis,
    pub(crate) at: usize,
    pub(crate) ptr: Ptr,
    pub(crate) plan: ReadPlan,
}
