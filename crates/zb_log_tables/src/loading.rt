ghost use Rattle.std.specs.Prelude.{◌≡◌};
ghost use Rattle.std.specs.List.{AllByRecursion};
ghost use Rattle.std.specs.List.Sorted.{IsStrictlySortedBy};
ghost use Rattle.std.specs.Map.{keys_of};
ghost use Rattle.std.specs.Ordering.{nat_cmp};
ghost use Rattle.zb_tables.specs.Checkpoint.{held_cmp};
ghost use Rattle.zb_log_tables.specs.Logs.{IsLast, states_of};

use crate::held::HeldTable;
use crate::log::Log;
use crate::logs::LogTable;
use zb_types::HeldUse;

impl LogTable {
    /// The table of these logs, whose numbers have to rise, and behind whose last stripes there have to be others.
    pub fn of(logs: Vec<Log>) -> LogTable
        requires rising { IsStrictlySortedBy nat_cmp (keys_of (states_of logs.items)) }
        requires last { AllByRecursion (λ log. IsLast log.last) logs.items }
        ensures { result.logs ≡ states_of logs.items }
    {
        LogTable { logs }
    }

    /// The logs by number.
    pub fn slice(&self) -> &[Log]
        ensures logs { states_of result.now ≡ self.now.logs }
        ensures last { AllByRecursion (λ log. IsLast log.last) result.now }
    {
        &self.logs
    }
}

impl HeldTable {
    /// The table of these stripes, which have to stand by log and stripe.
    pub fn of(stripes: Vec<HeldUse>) -> HeldTable
        requires { IsStrictlySortedBy held_cmp stripes.items }
        ensures { result.stripes ≡ stripes.items }
    {
        HeldTable { stripes }
    }
}
