ghost use Rattle.std.specs.Prelude.{◌≡◌, ◌⊎◌, ◌*◌, Bool, Some, IsTrue, IfOk};
ghost use Rattle.zb_outside.specs.Counts.{Touches, GoesOn};
ghost use Rattle.zb_outside.specs.Runs.{SparesOthers};
ghost use Rattle.zb_types.specs.declared.geometry.Geometry.{Geometry as SeenGeometry};
ghost use Rattle.zb_types.specs.declared.ids.ServerId.{ServerId as SeenServerId};
ghost use Rattle.zb_fragstore.specs.Seen.{SeenStore, IsStoreOf, size_in, known, holding};
ghost use Rattle.zb_holding.specs.Rules.{known_refusal, refusal_of};
ghost use Rattle.zb_types.specs.declared.requests.StoreFault.{StoreFault};
ghost use Rattle.zb_fragstore.specs.Changing.{map_in, IsOpen};
ghost use Rattle.zb_fragstore.specs.Reading.{IsLookedAt};
ghost use Rattle.zb_fragstore.specs.Opening.{opening_stopped};
ghost use Rattle.zb_server.specs.Asking.{most_writes};
ghost use Rattle.zb_server.specs.Answering.{IsKnown, AreSizesLeft};
ghost use Rattle.zb_server.specs.Serving.{MayServe, IsNodeOf, IsAway, crashed, WentDown, StaysUp, Serves, is_down, is_serving};
ghost use Rattle.zb_server.specs.Rising.{away, Leaves, Reopens, Rises};

use crate::answers::{answer, has_stopped, said};
use std::alloc::Global;
use zb_fragstore::{FragStore, OpenFault};
use zb_outside::Bay;
use zb_types::{Geometry, Request, Response, ServerId};

/// A storage server's node.
#[derive(Drop)]
pub enum Server {
    /// It is up with its store. While it is being mended it takes requests, and isn't read from.
    Up { store: FragStore, mending: bool },
    Down,
    /// Its platter is no store of this server.
    Blank,
}

// Restarts the platter of a server, and opens the store on it.
fn reopened<B: Bay>(
    alloc: Global,
    bay: &mut B,
    geo: &Geometry,
    server: ServerId,
) -> Result<FragStore, OpenFault>
    ensures is { IfOk result (IsStoreOf geo.now server) }
    ensures told { IsTrue B.tells → Reopens geo.now server result (B.meaning bay.old) (B.meaning bay.new) }
    ensures touches { Touches B.counts B.follows server.0 (3 * geo.now.slots) (opening_stopped result) bay.old bay.new }
{
    bay.restart(usize::from(server.0))?;
    FragStore::open(alloc, bay, geo, server)
}

// A node whose store isn't opened.
fn away_after(fault: OpenFault) -> Server
    ensures { result ≡ away fault }
{
    match fault {
        OpenFault::Blank => Server::Blank,
        _ => Server::Down,
    }
}

impl Server {
    /// Answers a request that is made in this generation: `Down` or `Blank` exactly where the node is so, and else what
    /// its store answers. A store whose platter stopped makes the node down, and the answer is `Down` then.
    ///
    /// What the store refuses by what it has in memory makes no call of the platter, and leaves the node as it was. What
    /// it refuses by what stands on the platter only looks at it, also where the platter stops. The other platters are as
    /// before at each moment, whatever this one holds.
    ///
    /// What a node that is up is asked fits its system: a share goes to an index below the last and a parity to the last,
    /// and all bytes lie within a fragment.
    pub fn serve<B: Bay>(
        &mut self,
        alloc: Global,
        bay: &mut B,
        generation: u64,
        request: &Request,
    ) -> Response
        requires fits { MayServe self.old request.now }
        ensures up { (store : SeenStore) (mending : Bool) → self.old ≡ Server.Up store mending
            → WentDown self.new result ⊎ StaysUp mending self.new }
        ensures system { (geo : SeenGeometry) (server : SeenServerId) → IsNodeOf geo server self.old → IsNodeOf geo server self.new }
        ensures told { (store : SeenStore) (mending : Bool) → self.old ≡ Server.Up store mending
            → IsTrue B.tells → IsOpen store (B.meaning bay.old).now
            → Serves store mending generation request.now self.new result (B.meaning bay.old) (B.meaning bay.new) }
        ensures refused { (store : SeenStore) (mending : Bool) → self.old ≡ Server.Up store mending
            → (fault : StoreFault) → known_refusal (known store) generation request.now ≡ Some fault
            → (result ≡ Response.Refused fault) × (bay.new ≡ bay.old) × (self.new ≡ self.old) }
        ensures looked { (store : SeenStore) (mending : Bool) → self.old ≡ Server.Up store mending
            → IsTrue B.tells → IsOpen store (B.meaning bay.old).now → (fault : StoreFault)
            → refusal_of (holding store (map_in store (B.meaning bay.old).now)) generation request.now ≡ Some fault
            → IsLookedAt store.server.0 (B.meaning bay.old) (B.meaning bay.new) }
        ensures down { self.old ≡ Server.Down → result ≡ Response.Down }
        ensures blank { self.old ≡ Server.Blank → result ≡ Response.Blank }
        ensures same { IsAway self.old → self.new ≡ self.old }
        ensures still { IsAway self.old → bay.new ≡ bay.old }
        ensures known { (store : SeenStore) (mending : Bool) → self.old ≡ Server.Up store mending
            → (now : SeenStore) → self.new ≡ Server.Up now mending → IsKnown store generation request.now now result }
        ensures sizes { (store : SeenStore) (mending : Bool) → self.old ≡ Server.Up store mending
            → (now : SeenStore) → self.new ≡ Server.Up now mending → AreSizesLeft request.now result (size_in store) (size_in now) }
        ensures others { (store : SeenStore) (mending : Bool) → self.old ≡ Server.Up store mending
            → IsTrue B.tells → SparesOthers store.server.0 (B.meaning bay.old) (B.meaning bay.new) }
        ensures touches { (store : SeenStore) (mending : Bool) → self.old ≡ Server.Up store mending
            → Touches B.counts B.follows store.server.0 (most_writes request.now) (is_down self.new) bay.old bay.new }
        ensures goes_on { GoesOn B.counts B.follows bay.old bay.new }
    {
        let answered = match self {
            Server::Up { store, .. } => answer(store, alloc, bay, generation, request),
            Server::Down => return Response::Down,
            Server::Blank => return Response::Blank,
        };
        if has_stopped(&answered) {
            self.crash();
            return Response::Down;
        }
        said(answered)
    }

    /// Makes a node that is up down, and leaves any other as it is.
    pub fn crash(&mut self)
        ensures { self.new ≡ crashed self.old }
    {
        if matches!(self, Server::Up { .. }) {
            *self = Server::Down;
        }
    }

    /// Restarts the platter and opens its store. Where that isn't possible the node is blank after `Blank`, and down
    /// after any other fault.
    pub fn up<B: Bay>(
        &mut self,
        alloc: Global,
        bay: &mut B,
        geo: &Geometry,
        server: ServerId,
    ) -> Result<(), OpenFault>
        ensures leaves { Leaves geo.now server result self.new }
        ensures told { IsTrue B.tells → Rises geo.now server result self.new (B.meaning bay.old) (B.meaning bay.new) }
        ensures touches { Touches B.counts B.follows server.0 (3 * geo.now.slots) (opening_stopped result) bay.old bay.new }
    {
        match reopened(alloc, bay, geo, server) {
            Ok(store) => {
                *self = Server::Up {
                    store,
                    mending: false,
                };
                Ok(())
            }
            Err(fault) => {
                *self = away_after(fault);
                Err(fault)
            }
        }
    }

    /// Whether it answers requests of those who read: it is up, and isn't being mended.
    pub fn serving(&self) -> bool
        ensures { result ≡ is_serving self.now }
    {
        matches!(self, Server::Up { mending: false, .. })
    }
}
