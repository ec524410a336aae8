ghost use Rattle.std.specs.Prelude.{◌<◌, ◌≤◌, length};
ghost use Rattle.zb_usage.specs.Choosing.{AnswersPlace};

use crate::stripe_use::StripeUse;

/// What chooses a stripe of a list, by its place from 0.
pub type Choose = Box<dyn Fn(&[StripeUse]) -> usize + Send>;

/// Chooses a stripe of a list that isn't empty, by its place from 0.
pub trait Chooses: Drop {
    fn choose(&self, list: &[StripeUse]) -> usize
        requires { 1 ≤ length list.now }
        ensures { result < length list.now };
}

/// How the cleaner chooses a stripe: a closure whose answer, on each list that isn't empty, is a place of the list.
#[derive(Drop)]
pub struct Policy {
    choose: Choose,
    ghost callable: { Choose.IsAlwaysCallable choose },
    ghost answers: { AnswersPlace (Choose.post choose) },
}

impl Policy {
    /// A policy that chooses by this closure. On each list that isn't empty it has to answer a place below its length.
    pub fn new(choose: Choose) -> Policy
        requires callable { Choose.IsAlwaysCallable choose }
        requires answers { AnswersPlace (Choose.post choose) }
    {
        Policy { choose }
    }
}

impl Chooses for Policy {
    /// The place of the stripe that the closure chooses.
    fn choose(&self, list: &[StripeUse]) -> usize {
        (self.choose)(list)
    }
}
