ghost use Rattle.std.specs.Prelude.{◌≡◌, true, IfOk, IfErr, OnErr};
ghost use Rattle.zb_client.specs.Answering.{Answers};
ghost use Rattle.zb_client.specs.Hearing.{Hears};
ghost use Rattle.zb_client.specs.Telling.{Heard};
ghost use Rattle.zb_nodes.specs.Halting.{HasHalted};

use crate::answers::Halt;
use std::alloc::Global;
use zb_client::{Answer, Client, Told};

/// A client takes an answer to its wish. After an error it is as before.
pub(crate) fn hear(alloc: Global, client: &mut Client, answer: Answer) -> Result<Told, Halt>
    requires ready { client.old.is_ready ≡ true }
    requires answers { Answers client.old answer }
    ensures ok { IfOk result (λ told. Hears client.old answer (record { client = client.new; told = told })) }
    ensures err { OnErr result (client.new ≡ client.old) }
    ensures cause { IfErr result (HasHalted client.old answer) }
{
    Ok(client.hear(alloc, answer)?)
}
