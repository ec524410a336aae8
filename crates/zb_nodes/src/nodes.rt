ghost use Rattle.std.specs.Prelude.{◌≡◌, ◌↔◌, ◌-◌, ◌<◌, ◌≤◌, IfOk, IfErr, OnOk, OnErr, Some, IsTrue, IsSomeAnd, length, option_map, slice_get};
ghost use Rattle.zb_types.specs.Names.{last_number};
ghost use Rattle.zb_types.specs.Tree.{listing};
ghost use Rattle.zb_tables.specs.Tables.{Contents, shown_tree};
ghost use Rattle.zb_tables.specs.Fold.{attached};
ghost use Rattle.zb_manager.specs.Managers.{sizes_of};
ghost use Rattle.zb_system.specs.First.{AreFirst};
ghost use Rattle.zb_nodes.specs.Halting.{HasCauseAt};
ghost use Rattle.zb_nodes.specs.Seen.{Flushes, IfStill, IfTold, IsSound, Keeps, Pushes, blocker_at, kind_at};
ghost use Rattle.zb_nodes.specs.Wished.{holder_in};
ghost use Rattle.zb_system.specs.Steps.{HasStepped, IsReadied};

use crate::answers::{Halt, Moved};
use crate::carrying;
use crate::listing::list;
use std::alloc::Global;
use std::marker::Model;
use zb_client::Client;
use zb_manager::Manager;
use zb_servers::Servers;
use zb_types::{Call, Geometry, Kind, LogId, Mem, TreeList};

/// The nodes of a system: its clients, the file manager and the storage servers, all in memory.
#[derive(Drop)]
pub struct Nodes {
    clients: Vec<Client>,
    manager: Manager,
    servers: Servers,
}

impl Model for Nodes {
    ghost use Rattle.zb_system.specs.Nodes.{SeenNodes};

    ghost Value = { SeenNodes };

    ghost view = { λ a. record { clients = a.clients.items; manager = a.manager; servers = a.servers } };
}

/// Gives an owner, 0 for the cleaner and else a client, the next log.
fn attach(alloc: Global, manager: &mut Manager, owner: u8) -> Mem<LogId>
    requires { manager.old.tables.next_log < last_number }
    ensures log { IfOk result (λ log. log.0 ≡ manager.old.tables.next_log) }
    ensures tables { IfOk result (λ log. manager.new.tables ≡ attached manager.old.tables owner log) }
    ensures sizes { manager.new.sizes ≡ manager.old.sizes }
    ensures holder { manager.new.holder ≡ manager.old.holder }
{
    manager.room(alloc)?;
    Ok(manager.attach(owner))
}

impl Nodes {
    /// The nodes of a system: clients 1 to C with logs 1 to C, which were given nothing, a file manager with empty tables
    /// beside them, whose cleaner has log C + 1, and servers that keep nothing.
    pub fn new(alloc: Global, geo: &Geometry) -> Mem<Nodes>
        ensures first { IfOk result AreFirst }
        ensures sizes { IfOk result (λ made. made.manager.sizes ≡ sizes_of geo.now) }
        ensures slots { IfOk result (λ made. made.servers.slots ≡ geo.now.slots) }
    {
        let mut manager = Manager::new(alloc, geo)?;
        let mut clients = Vec::new(alloc);
        for i in 0..geo.clients {
            let number = i as u8 + 1;
            let log = attach(alloc, &mut manager, number)?;
            clients.push(Client::new(alloc, geo, number, log)?)?;
        }
        attach(alloc, &mut manager, 0)?;
        Ok(Nodes {
            clients,
            manager,
            servers: Servers::new(alloc, geo)?,
        })
    }

    /// Puts a call at the end of a client's queue. After want of memory nothing has changed.
    pub fn push(&mut self, alloc: Global, client: u8, number: u64, call: Call) -> Mem<()>
        requires first { 1 ≤ client }
        requires last { client ≤ length self.old.clients }
        ensures ok { OnOk result (Pushes self.old self.new (client - 1) number call) }
        ensures err { OnErr result (self.new ≡ self.old) }
    {
        self.clients[usize::from(client) - 1].push(alloc, number, call)
    }

    /// A client that has no work begins to commit all that it keeps, at the end of a run.
    pub fn flush(&mut self, client: u8)
        requires first { 1 ≤ client }
        requires last { client ≤ length self.old.clients }
        requires idle { kind_at self.old (client - 1) ≡ Some Kind.Idle }
        requires keeps { Keeps self.old (client - 1) }
        ensures { Flushes self.old self.new (client - 1) }
    {
        self.clients[usize::from(client) - 1].flush();
    }

    /// The kind of a client's next step, `Idle` where there is none.
    pub fn kind(&self, client: u8) -> Kind
        requires first { 1 ≤ client }
        requires last { client ≤ length self.now.clients }
        ensures { kind_at self.now (client - 1) ≡ Some result }
    {
        self.clients[usize::from(client) - 1].kind()
    }

    /// The client that holds the file manager.
    pub fn holder(&self) -> Option<u8>
        ensures { result ≡ self.now.manager.holder }
    {
        self.manager.holder()
    }

    /// Whether a client keeps calls.
    pub fn keeps(&self, client: u8) -> bool
        requires first { 1 ≤ client }
        requires last { client ≤ length self.now.clients }
        ensures { IsTrue result ↔ Keeps self.now (client - 1) }
    {
        self.clients[usize::from(client) - 1].kept(0).is_some()
    }

    /// One step of a client: a move inside, one request to one server, or one turn of the file manager. It is `Idle` exactly
    /// where the client has no work, and `Blocked` exactly where its step is a commit, or a lookup that is to hold the file
    /// manager, and another client holds it.
    ///
    /// Where no step was made nothing has changed but that the client may have memory for its next step, and the file manager
    /// room: so it is where the client is idle or blocked, where memory ran out, and where a number is worn, of which the halt
    /// tells the field.
    pub fn step(&mut self, alloc: Global, client: u8) -> Result<Moved, Halt>
        requires sound { IsSound self.old }
        requires first { 1 ≤ client }
        requires last { client ≤ length self.old.clients }
        ensures told { IfOk result (IfTold (HasStepped self.old self.new (client - 1))) }
        ensures idle { IfOk result (λ moved. (moved ≡ Moved.Idle) ↔ (kind_at self.old (client - 1) ≡ Some Kind.Idle)) }
        ensures blocked { IfOk result (λ moved. holder_in moved ≡ blocker_at self.old (client - 1)) }
        ensures still { IfOk result (IfStill (IsReadied self.old self.new (client - 1))) }
        ensures err { OnErr result (IsReadied self.old self.new (client - 1)) }
        ensures cause { IfErr result (HasCauseAt self.old (client - 1)) }
    {
        let at = usize::from(client) - 1;
        carrying::step(
            alloc,
            &mut self.clients[at],
            &mut self.manager,
            &mut self.servers,
            client,
        )
    }

    /// The tree that the file manager's tables show, in the order of path bytes, files with their lengths. It doesn't look at
    /// the bytes of stripes.
    pub fn tree(&self, alloc: Global) -> Mem<TreeList>
        ensures { IfOk result (λ list. (contents : Contents)
            → list ≡ listing (shown_tree self.now.manager.sizes.block self.now.manager.tables contents)) }
    {
        list(alloc, &self.manager)
    }
}
