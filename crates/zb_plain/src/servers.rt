ghost use Rattle.std.specs.Prelude.{◌≡◌, List, [], false, replicate, IfOk, OnOk, OnErr, length};
ghost use Rattle.zb_holding.specs.Carrying.{carried};
ghost use Rattle.zb_plain.specs.Standing.{entries_of, maps_of, IsInOrder};
ghost use Rattle.zb_holding.specs.Rules.{is_done, IsAnswer};
ghost use Rattle.zb_plain.specs.Answering.{holdings_of, answer_of, MayAsk};

use crate::server::PlainServer;
use std::alloc::Global;
use std::marker::Model;
use zb_types::{Mem, Request, Response, ServerId};

/// Servers 1 to `len`, of which contracts see what each keeps.
#[derive(Drop)]
pub struct PlainServers {
    servers: Vec<PlainServer>,
}

impl Model for PlainServers {
    ghost use Rattle.std.specs.Prelude.{List};
    ghost use Rattle.zb_plain.specs.Standing.{Entries};

    ghost Value = { List Entries };

    ghost view = { λ a. a.servers.items };
}

impl PlainServers {
    /// So many servers, which keep nothing.
    pub fn new(alloc: Global, servers: u8) -> Mem<PlainServers>
        ensures { IfOk result (λ plain. plain ≡ replicate servers []) }
    {
        let mut all = Vec::new(alloc);
        for _ in 0..servers {
            all.push(PlainServer::new(alloc))?;
        }
        Ok(PlainServers { servers: all })
    }

    /// What a server answers to a request, carried out or refused. It is never down, has room for every fragment,
    /// and doesn't look at generations: a fence is answered `Done`. A store is refused by `Exists`; an append by
    /// `NoFragment`, or by `Offset` where the bytes don't stand at the place already and it isn't the end of a
    /// share; a retrieve by `NoFragment` or `Short`; a delete by `NoFragment`. Where memory runs out nothing has
    /// changed.
    pub fn serve(&mut self, alloc: Global, server: ServerId, request: &Request) -> Mem<Response>
        requires { MayAsk (length self.old) (server, request.now) }

        // The answer is by the rules of a server for what that server keeps.
        ensures rules { IfOk result (IsAnswer (holdings_of (entries_of self.old server)) 0 request.now) }
        ensures answer { IfOk result (λ answer. answer ≡ answer_of (entries_of self.old server) request.now) }

        // That server has carried the request out, and each other keeps what it kept.
        ensures carried { OnOk result
            (maps_of self.new ≡ carried (maps_of self.old) (server, request.now)) }

        // An answer other than done changes nothing.
        ensures same { IfOk result (λ answer. is_done answer ≡ false → self.new ≡ self.old) }
        ensures err { OnErr result (self.new ≡ self.old) }
        ensures count { length self.new ≡ length self.old }

        // Each of its names stands once, in order.
        ensures order { IsInOrder (entries_of self.old server) }
    {
        self.servers[usize::from(server.0) - 1].serve(alloc, request)
    }
}
