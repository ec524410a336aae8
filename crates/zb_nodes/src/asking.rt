ghost use Rattle.std.specs.Prelude.{◌≡◌, ◌<◌, ◌≤◌, true, if◌then◌else◌, IfOk, IfErr, OnErr, length};
ghost use Rattle.zb_manager.specs.Managers.{SeenManager};
ghost use Rattle.zb_manager.specs.Seen.{held_by};
ghost use Rattle.zb_servers.specs.Standing.{IsInOrder, server_at};
ghost use Rattle.zb_servers.specs.Serving.{MayAsk, is_refused};
ghost use Rattle.zb_turns.specs.Turns.{other_holder};
ghost use Rattle.zb_client.specs.Telling.{Heard};
ghost use Rattle.zb_system.specs.Steps.{IsServed};
ghost use Rattle.zb_nodes.specs.Among.{MayStep};
ghost use Rattle.zb_nodes.specs.Halting.{FetchWears, OnWorn, stripe_field};
ghost use Rattle.zb_nodes.specs.Moving.{DoesNext, IsStill};
ghost use Rattle.zb_nodes.specs.Wished.{IsAtFetch, IsAtStore, is_read};

use crate::answers::Halt;
use crate::hearing::hear;
use std::alloc::Global;
use zb_client::{Answer, Client, Told};
use zb_manager::Manager;
use zb_servers::Servers;
use zb_turns::give_up;
use zb_types::{Mem, Request, Response, ServerId};

/// The names that a server keeps are in order. Nothing changes.
fn know_order(servers: &Servers, server: ServerId)
    requires first { 0 < server.0 }
    requires last { server.0 ≤ length servers.now.servers }
    ensures { IsInOrder (server_at servers.now.servers server).entries }
{
    let _ = servers.free(server);
}

/// One request to one server. A read leaves the servers as they are, and so does want of memory.
fn serve(
    alloc: Global,
    servers: &mut Servers,
    server: ServerId,
    generation: u64,
    request: &Request,
) -> Mem<Response>
    requires { MayAsk (length servers.old.servers) (server, request.now) }
    ensures served { IfOk result (IsServed servers.old servers.new generation (server, request.now)) }
    ensures read { is_read request.now ≡ true → servers.new ≡ servers.old }
    ensures err { OnErr result (servers.new ≡ servers.old) }
{
    know_order(servers, server);
    let response = servers.serve(alloc, server, generation, request)?;
    know_order(servers, server);
    Ok(response)
}

fn is_refused(response: &Response) -> bool
    ensures { result ≡ is_refused response.now }
{
    matches!(response, Response::Refused(_))
}

/// A client whose batch was refused, if it was, doesn't hold the file manager any longer.
fn give_up_if(manager: &mut Manager, number: u8, refused: bool)
    ensures { manager.new ≡ (if refused then held_by (other_holder number manager.old.holder) manager.old else manager.old) }
{
    if refused {
        give_up(manager, number);
    }
}

/// A client reads a block, or a part of it, with one request. After an error client and servers are as before.
pub(crate) fn fetch(
    alloc: Global,
    client: &mut Client,
    servers: &mut Servers,
    server: ServerId,
    generation: u64,
    request: &Request,
) -> Result<Told, Halt>
    requires may { (m : SeenManager) × MayStep m servers.old client.old }
    requires at { IsAtFetch client.old generation (server, request.now) }
    ensures told { IfOk result (λ told. (m : SeenManager)
        → DoesNext m servers.old client.old m servers.new (record { client = client.new; told = told })) }
    ensures client { OnErr result (client.new ≡ client.old) }
    ensures servers { OnErr result (servers.new ≡ servers.old) }
    ensures cause { IfErr result (OnWorn (FetchWears servers.old client.old)) }
{
    let response = serve(alloc, servers, server, generation, request)?;
    let serving = servers.serving();
    hear(alloc, client, Answer::Server { response, serving })
}

/// A client makes the next request of its batch. Where a server has no slot for it the client gives up, and doesn't hold the
/// file manager any longer. After an error all is as before.
pub(crate) fn store(
    alloc: Global,
    client: &mut Client,
    manager: &mut Manager,
    servers: &mut Servers,
    number: u8,
    server: ServerId,
    generation: u64,
    request: &Request,
) -> Result<Told, Halt>
    requires may { MayStep manager.old servers.old client.old }
    requires at { IsAtStore client.old generation (server, request.now) }
    requires number { client.old.client ≡ number }
    ensures told { IfOk result (λ told.
        DoesNext manager.old servers.old client.old manager.new servers.new (record { client = client.new; told = told })) }
    ensures err { OnErr result (IsStill manager.old servers.old client.old manager.new servers.new client.new) }
    ensures cause { IfErr result (λ halt. halt ≡ Halt.NoMemory) }
{
    let response = serve(alloc, servers, server, generation, request)?;
    let refused = is_refused(&response);
    let serving = servers.serving();
    let told = hear(alloc, client, Answer::Server { response, serving })?;
    give_up_if(manager, number, refused);
    Ok(told)
}
