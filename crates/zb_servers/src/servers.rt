ghost use Rattle.std.specs.Prelude.{◌≡◌, ◌+◌, ◌<◌, ◌≤◌, nat_le, true, false, replicate, None, IfOk, OnErr, length};
ghost use Rattle.zb_types.specs.declared.ids.ServerId.{ServerId as SeenServerId};
ghost use Rattle.zb_types.specs.declared.ids.FragId.{FragId as SeenFragId};
ghost use Rattle.zb_holding.specs.Carrying.{carried};
ghost use Rattle.zb_holding.specs.Rules.{IsAnswer, IsLeft};
ghost use Rattle.zb_servers.specs.Standing.{empty_server, server_at, has, maps_of, IsInOrder, AreOthersSame};
ghost use Rattle.zb_servers.specs.Serving.{MayAsk, is_refused, has_bit};

use crate::server::Server;
use std::alloc::Global;
use std::marker::Model;
use zb_types::{Geometry, Mem, Request, Response, ServerId};

/// Servers 1 to n, at most 16, each with as many slots. Contracts see what each keeps, and its fence.
#[derive(Drop)]
pub struct Servers {
    slots: u32,
    servers: Vec<Server>,
}

impl Model for Servers {
    ghost use Rattle.zb_servers.specs.Standing.{SeenServers, AreServers};

    ghost Value = { SeenServers };

    ghost view = { λ a. record { slots = a.slots; servers = a.servers.items } };

    ghost invariant = { λ a. AreServers a.slots a.servers.items };
}

impl Servers {
    /// The servers of a system: they keep nothing, and have fence 1.
    pub fn new(alloc: Global, geo: &Geometry) -> Mem<Servers>
        ensures slots { IfOk result (λ made. made.slots ≡ geo.now.slots) }
        ensures servers { IfOk result (λ made. made.servers ≡ replicate geo.now.servers empty_server) }
        ensures nothing { IfOk result (λ made. (server : SeenServerId) (id : SeenFragId) → maps_of made server id ≡ None) }
    {
        let mut servers = Vec::new(alloc);
        for _ in 0..geo.servers {
            servers.push(Server::new(alloc))?;
        }
        Ok(Servers {
            slots: geo.slots,
            servers,
        })
    }

    /// What a server answers to a request of a generation, carried out or refused. It is never down or blank. It refuses
    /// in this order: by `OldGeneration` where the generation of a store, append, parity or retrieve, or the one that a
    /// fence asks for, is below its fence; by `NoFragment` an append, retrieve or delete of a name that it lacks, and by
    /// `Exists` a store of one that it has; by `Offset` an append at a place that isn't a share's end, unless its bytes
    /// stand there already; by `Short` a retrieve past a share's end; by `NoSlot` a store or a first parity where, of the
    /// slots, at most 4 are free for a client or none for the cleaner, and a parity that replaces another where none is.
    /// A fence alone changes what generations it takes.
    pub fn serve(
        &mut self,
        alloc: Global,
        server: ServerId,
        generation: u64,
        request: &Request,
    ) -> Mem<Response>
        requires { MayAsk (length self.old.servers) (server, request.now) }

        // The answer is by the rules, and that server has then what the rules leave.
        ensures rules { IfOk result (IsAnswer (has self.old server) generation request.now) }
        ensures left { IfOk result (λ answer. IsLeft (has self.old server) request.now answer (has self.new server)) }

        // What was answered is carried out, and what was refused changes nothing.
        ensures carried { IfOk result (λ answer. is_refused answer ≡ false
            → maps_of self.new ≡ carried (maps_of self.old) (server, request.now)) }
        ensures refused { IfOk result (λ answer. is_refused answer ≡ true → self.new ≡ self.old) }

        // Where memory runs out nothing has changed, and the other servers never do.
        ensures err { OnErr result (self.new ≡ self.old) }
        ensures others { AreOthersSame server self.old self.new }
        ensures slots { self.new.slots ≡ self.old.slots }
        ensures count { length self.new.servers ≡ length self.old.servers }
    {
        let slots = self.slots;
        self.servers[usize::from(server.0) - 1].serve(alloc, slots, generation, request)
    }

    /// How many slots of a server are free. Each of its names takes one.
    pub fn free(&self, server: ServerId) -> u32
        requires first { 0 < server.0 }
        requires last { server.0 ≤ length self.now.servers }
        ensures free { result ≡ (has self.now server).free }
        ensures slots { length (server_at self.now.servers server).entries + result ≡ self.now.slots }
        ensures order { IsInOrder (server_at self.now.servers server).entries }
    {
        self.servers[usize::from(server.0) - 1].free(self.slots)
    }

    /// Which servers serve: the bit of value 2^(I - 1) is set for server I of them, which all do, and no other bit.
    pub fn serving(&self) -> u32
        ensures { (server : SeenServerId) → 0 < server.0 → has_bit result server ≡ nat_le server.0 (length self.now.servers) }
    {
        (1 << self.servers.len()) - 1
    }
}
