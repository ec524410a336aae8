ghost use Rattle.std.specs.Prelude.{◌≡◌, true, if◌then◌else◌, None, Some, IfOk, IfErr, OnErr};
ghost use Rattle.zb_manager.specs.Managers.{SeenManager};
ghost use Rattle.zb_manager.specs.Seen.{held_by};
ghost use Rattle.zb_servers.specs.Standing.{SeenServers};
ghost use Rattle.zb_turns.specs.Turns.{other_holder};
ghost use Rattle.zb_client.specs.declared.steps.Lookup.TheVariants.{Files, Names};
ghost use Rattle.zb_client.specs.Telling.{Heard};
ghost use Rattle.zb_client_laws.specs.Effects.{founds};
ghost use Rattle.zb_nodes.specs.Among.{MayStep};
ghost use Rattle.zb_nodes.specs.Halting.{LookupWears, OnWorn};
ghost use Rattle.zb_nodes.specs.Moving.{DoesNext};
ghost use Rattle.zb_nodes.specs.Wished.{IsAtLookup};

use crate::answers::Halt;
use crate::hearing::hear;
use std::alloc::Global;
use zb_basis::{Ask, FoundList};
use zb_client::{Answer, Client, Told};
use zb_manager::Manager;
use zb_turns::{answer_names, look_up};
use zb_types::{Call, Mem};

/// What the tables have of each that is asked. The file manager is as before.
fn find(alloc: Global, manager: &mut Manager, number: u8, asks: &[Ask]) -> Mem<FoundList>
    ensures found { IfOk result (λ list. list ≡ founds manager.old.tables asks.now) }
    ensures same { manager.new ≡ manager.old }
{
    match look_up(alloc, manager, number, false, asks)? {
        Ok(found) => Ok(found),
        Err(_) => unreachable!(),
    }
}

/// A client holds the file manager from now on, if it is to. No other holds.
fn hold_if(manager: &mut Manager, number: u8, hold: bool)
    requires { hold ≡ true → other_holder number manager.old.holder ≡ None }
    ensures { manager.new ≡ (if hold then held_by (Some number) manager.old else manager.old) }
{
    if hold {
        let _ = manager.hold(number);
    }
}

/// A client looks files up, and holds the file manager from then on, if it is to. After an error all is as before.
pub(crate) fn look_up_files(
    alloc: Global,
    client: &mut Client,
    manager: &mut Manager,
    number: u8,
    hold: bool,
    asks: &[Ask],
) -> Result<Told, Halt>
    requires may { (s : SeenServers) × MayStep manager.old s client.old }
    requires at { IsAtLookup client.old (Files hold asks.now) }
    requires number { client.old.client ≡ number }
    requires unblocked { hold ≡ true → other_holder number manager.old.holder ≡ None }
    ensures told { IfOk result (λ told. (s : SeenServers)
        → DoesNext manager.old s client.old manager.new s (record { client = client.new; told = told })) }
    ensures client { OnErr result (client.new ≡ client.old) }
    ensures manager { OnErr result (manager.new ≡ manager.old) }
    ensures cause { IfErr result (OnWorn (LookupWears manager.old client.old)) }
{
    let found = find(alloc, manager, number, asks)?;
    let told = hear(alloc, client, Answer::Found(found))?;
    hold_if(manager, number, hold);
    Ok(told)
}

/// A client is answered a call that reads names. After an error it is as before.
pub(crate) fn look_up_names(
    alloc: Global,
    client: &mut Client,
    manager: &Manager,
    call: &Call,
) -> Result<Told, Halt>
    requires may { (s : SeenServers) × MayStep manager.now s client.old }
    requires at { IsAtLookup client.old (Names call.now) }
    ensures told { IfOk result (λ told. (s : SeenServers)
        → DoesNext manager.now s client.old manager.now s (record { client = client.new; told = told })) }
    ensures err { OnErr result (client.new ≡ client.old) }
    ensures cause { IfErr result (λ halt. halt ≡ Halt.NoMemory) }
{
    let reply = answer_names(alloc, manager, call)?;
    hear(alloc, client, Answer::Named(reply))
}
