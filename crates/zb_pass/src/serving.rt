ghost use Rattle.std.specs.Prelude.{◌≡◌, IfOk, IfErr, OnErr, true};
ghost use Rattle.zb_log.specs.declared.placed.LogFault.TheVariants.{Worn};
ghost use Rattle.zb_steps.specs.Serving.{brings_bytes};
ghost use Rattle.zb_pass.specs.Fitting.{Fits, NextFits};
ghost use Rattle.zb_pass.specs.Going.{ServerGives, ServerWears};
ghost use Rattle.zb_pass.specs.Serving.{CanServe};

use crate::sweeping::{deleted, swept};
use crate::work::{Fetching, Next, Work};
use crate::writer::Writer;
use std::alloc::Global;
use zb_log::LogFault;
use zb_types::Response;

impl Writer {
    /// Takes the response to the request that stands. Memory may be wanting for bytes that a fetch brought; `Worn` comes
    /// where with them all blocks have come, and their batch can't be spelled or goes above the last stripe that a log may
    /// have, 2 ^ 48. After an error the writer is as before, and the work is handed back.
    pub fn served(
        &mut self,
        alloc: Global,
        work: Work,
        response: Response,
        serving: u32,
    ) -> Result<Next, (LogFault, Work)>
        requires fits { Fits self.old.servers self.old.fragment self.old.block self.old.log work }
        requires can { CanServe work response }
        ensures ok { IfOk result (λ next. ServerGives self.old work response serving (record { writer = self.new; next = next })) }
        ensures fits { IfOk result (NextFits self.new) }
        ensures err { OnErr result (self.new ≡ self.old) }
        ensures back { IfErr result (λ e. e.1 ≡ work) }
        ensures cause { OnErr result (brings_bytes response ≡ true) }
        ensures worn { IfErr result (λ e. e.0 ≡ Worn → ServerWears self.old work response) }
    {
        self.knows();
        match work {
            Work::Fetch { cleaning, plan } => {
                let read = Fetching { cleaning, plan };
                match self.fetched(alloc, read, &response, serving) {
                    Ok(next) => Ok(next),
                    Err((fault, read)) => Err((fault, read.work())),
                }
            }
            Work::Store { cleaning, formed } => Ok(self.store_on(cleaning, formed, &response)),
            Work::Sweep { sweep, .. } => Ok(swept(&self.geo, sweep, response, serving)),
            Work::Delete { sweep, left, again } => {
                Ok(deleted(&self.geo, sweep, left, again, &response, serving))
            }
            other => Ok(Next::Work(other)),
        }
    }
}
