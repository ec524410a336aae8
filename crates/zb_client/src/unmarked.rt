ghost use Rattle.std.specs.Prelude.{◌≡◌, true, Option};
ghost use Rattle.zb_work.specs.Steps.{step_of};
ghost use Rattle.zb_client.specs.Hearing.{unreachable};
ghost use Rattle.zb_client.specs.Working.{marking, hears_unmarked};

use crate::client::Client;
use crate::steps::Told;
use zb_types::{Cause, MarkFault, ServerId};
use zb_work::{Step, Task};

/// Two servers that don't serve, the one with the lesser number first.
fn unreachable(a: ServerId, b: ServerId) -> Cause
    ensures { result ≡ unreachable a b }
{
    if a.0 < b.0 {
        Cause::Unreachable { a, b }
    } else {
        Cause::Unreachable { a: b, b: a }
    }
}

/// The server that is to be marked.
fn marking(task: &Option<Task>) -> Option<ServerId>
    ensures { result ≡ marking (step_of task.now) }
{
    match task {
        Some(
            Task {
                step: Step::Mark { server, .. },
                ..
            },
        ) => Some(*server),
        _ => None,
    }
}

impl Client {
    /// The server isn't marked as out, since another doesn't serve either.
    pub(crate) fn hear_unmarked(&mut self, fault: MarkFault) -> Told
        requires { self.old.is_ready ≡ true }
        ensures { hears_unmarked self.old (step_of self.old.task) fault ≡ record { client = self.new; told = result } }
    {
        match (marking(&self.task), fault) {
            (Some(server), MarkFault::Refused { other }) => {
                self.give_up(unreachable(server, other))
            }
            _ => self.give_up(Cause::Down),
        }
    }
}
