ghost use Rattle.std.specs.Prelude.{◌≡◌, true, None, IfOk, IfErr, OnErr};
ghost use Rattle.zb_manager.specs.Managers.{SameTables, SeenManager};
ghost use Rattle.zb_servers.specs.Standing.{SeenServers};
ghost use Rattle.zb_client.specs.declared.steps.Wish.TheVariants.{Turn as OfTurn, Server as OfServer};
ghost use Rattle.zb_client.specs.Seen.{kind_of};
ghost use Rattle.zb_client.specs.Telling.{Heard};
ghost use Rattle.zb_client.specs.Wishing.{wish_of};
ghost use Rattle.zb_system.specs.Nodes.{readied};
ghost use Rattle.zb_nodes.specs.Among.{IsAmong, MayStep};
ghost use Rattle.zb_nodes.specs.Halting.{FetchWears, HasCause, OnWorn, TurnWears};
ghost use Rattle.zb_nodes.specs.Moving.{CameTo, Carries, DoesNext, IsReadiedOnly, IsStill};
ghost use Rattle.zb_nodes.specs.Wished.{blocker_in, holder_in, waits};

use crate::answers::{Halt, Moved};
use crate::asking::{fetch, store};
use crate::committing::ask_commit;
use crate::hearing::hear;
use crate::looking::{look_up_files, look_up_names};
use std::alloc::Global;
use zb_client::{Answer, Client, Lookup, Told, Turn, Wish};
use zb_manager::Manager;
use zb_servers::Servers;
use zb_types::{Kind, Request, ServerId};

/// Whether a turn waits for the holder of the file manager: a lookup that is to hold, and a commit.
fn waits(wish: &Wish) -> bool
    ensures { result ≡ waits wish.now }
{
    match wish {
        Wish::Turn(Turn::Lookup(Lookup::Files { hold, .. })) => *hold,
        Wish::Turn(Turn::Commit { .. }) => true,
        _ => false,
    }
}

/// The other client that holds the file manager, where this wish needs it.
fn blocker(manager: &Manager, number: u8, wish: &Wish) -> Option<u8>
    ensures { result ≡ blocker_in manager.now.holder number wish.now }
{
    if !waits(wish) {
        return None;
    }
    match manager.holder() {
        Some(holder) if holder != number => Some(holder),
        _ => None,
    }
}

/// One turn of the file manager. After an error client and tables are as before.
fn take_turn(
    alloc: Global,
    client: &mut Client,
    manager: &mut Manager,
    number: u8,
    turn: Turn,
) -> Result<Told, Halt>
    requires may { (s : SeenServers) × MayStep manager.old s client.old }
    requires wish { OfTurn turn ≡ wish_of client.old }
    requires number { client.old.client ≡ number }
    requires unblocked { blocker_in manager.old.holder number (OfTurn turn) ≡ None }
    ensures told { IfOk result (λ told. (s : SeenServers)
        → DoesNext manager.old s client.old manager.new s (record { client = client.new; told = told })) }
    ensures client { OnErr result (client.new ≡ client.old) }
    ensures manager { OnErr result (SameTables manager.old manager.new) }
    ensures cause { IfErr result (OnWorn (TurnWears manager.old client.old)) }
{
    match turn {
        Turn::Lookup(Lookup::Files { hold, asks }) => {
            look_up_files(alloc, client, manager, number, hold, asks.slice())
        }
        Turn::Lookup(Lookup::Names(call)) => look_up_names(alloc, client, manager, &call),
        Turn::Mark { .. } => unreachable!(),
        Turn::Commit {
            batch,
            pieces,
            generation,
        } => ask_commit(
            alloc,
            client,
            manager,
            number,
            &batch,
            pieces.slice(),
            generation,
        ),
    }
}

/// One request to a server. After an error all is as before.
fn ask(
    alloc: Global,
    client: &mut Client,
    manager: &mut Manager,
    servers: &mut Servers,
    number: u8,
    server: ServerId,
    generation: u64,
    request: &Request,
) -> Result<Told, Halt>
    requires may { MayStep manager.old servers.old client.old }
    requires wish { OfServer server generation request.now ≡ wish_of client.old }
    requires number { client.old.client ≡ number }
    ensures told { IfOk result (λ told.
        DoesNext manager.old servers.old client.old manager.new servers.new (record { client = client.new; told = told })) }
    ensures err { OnErr result (IsStill manager.old servers.old client.old manager.new servers.new client.new) }
    ensures cause { IfErr result (OnWorn (FetchWears servers.old client.old)) }
{
    match client.kind() {
        Kind::Fetch => fetch(alloc, client, servers, server, generation, request),
        _ => store(
            alloc, client, manager, servers, number, server, generation, request,
        ),
    }
}

/// The first queued call is taken. After an error the client is as before.
fn take_call(alloc: Global, client: &mut Client) -> Result<Told, Halt>
    requires ready { client.old.is_ready ≡ true }
    requires wish { Wish.Inside ≡ wish_of client.old }
    ensures told { IfOk result (λ told. (m : SeenManager) (s : SeenServers)
        → DoesNext m s client.old m s (record { client = client.new; told = told })) }
    ensures err { OnErr result (client.new ≡ client.old) }
    ensures cause { IfErr result (λ halt. halt ≡ Halt.NoMemory) }
{
    hear(alloc, client, Answer::Inside)
}

/// What a client wishes is done, where no other client's hold is in its way. After an error all is as before.
fn carry_out(
    alloc: Global,
    client: &mut Client,
    manager: &mut Manager,
    servers: &mut Servers,
    number: u8,
    wish: Wish,
) -> Result<Moved, Halt>
    requires may { MayStep manager.old servers.old client.old }
    requires wish { wish ≡ wish_of client.old }
    requires idle { wish_of client.old ≡ Wish.Idle → kind_of client.old ≡ Kind.Idle }
    requires number { client.old.client ≡ number }
    requires unblocked { blocker_in manager.old.holder number wish ≡ None }
    ensures came { IfOk result (Carries manager.old servers.old client.old manager.new servers.new client.new) }
    ensures err { OnErr result (IsStill manager.old servers.old client.old manager.new servers.new client.new) }
    ensures cause { IfErr result (HasCause manager.old servers.old client.old) }
{
    match wish {
        Wish::Idle => Ok(Moved::Idle),
        Wish::Inside => Ok(Moved::Told(take_call(alloc, client)?)),
        Wish::Server(server, generation, request) => {
            let told = ask(
                alloc, client, manager, servers, number, server, generation, &request,
            )?;
            Ok(Moved::Told(told))
        }
        Wish::Turn(turn) => Ok(Moved::Told(take_turn(alloc, client, manager, number, turn)?)),
    }
}

/// One step of a client. After an error nothing has changed but what memory it has for its next step, and what room the file
/// manager has.
pub(crate) fn step(
    alloc: Global,
    client: &mut Client,
    manager: &mut Manager,
    servers: &mut Servers,
    number: u8,
) -> Result<Moved, Halt>
    requires among { IsAmong manager.old servers.old client.old }
    requires number { client.old.client ≡ number }
    ensures came { IfOk result (CameTo manager.old servers.old client.old manager.new servers.new client.new) }
    ensures blocked { IfOk result (λ moved. holder_in moved ≡ blocker_in manager.old.holder number (wish_of client.old)) }
    ensures err { OnErr result (IsReadiedOnly manager.old servers.old client.old manager.new servers.new client.new) }
    ensures cause { IfErr result (HasCause manager.old servers.old (readied client.old)) }
{
    client.ready(alloc)?;
    client.knows();
    let wish = client.wish(alloc)?;
    if let Some(holder) = blocker(manager, number, &wish) {
        return Ok(Moved::Blocked { holder });
    }
    carry_out(alloc, client, manager, servers, number, wish)
}
