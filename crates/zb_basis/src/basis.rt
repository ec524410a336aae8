ghost use Rattle.std.specs.Prelude.{◌≡◌, Option};
ghost use Rattle.zb_basis.specs.Forming.{writers_out, readers_out};

use zb_batch::Batch;
use zb_log::{Placed, PtrList};
use zb_stripe::{FreshFlush, WritePlan};
use zb_types::{ByteList, Found, Geometry, ItemList, LogId, Members, Ptr, ServerId, State};

/// A block that is wanted: with all its bytes once it was fetched, with none before.
#[derive(Drop)]
pub struct Fetched {
    pub ptr: Ptr,
    pub bytes: ByteList,
}

/// Blocks that are wanted, in order.
pub type FetchedList = ItemList<Fetched>;

/// What lookups found, one for each that was asked.
pub type FoundList = ItemList<Found>;

/// What a batch or a read rests on: what lookups found for its calls, the old blocks that are wanted, and each of these
/// in the same order with its bytes, or with none while it is missing.
#[derive(Drop)]
pub struct Basis {
    pub found: FoundList,
    pub wanted: PtrList,
    pub fetched: FetchedList,
}

/// A batch with its place in the log, for the members that its lookups showed.
#[derive(Drop)]
pub struct Sealed {
    pub members: Members,
    pub batch: Batch,
    pub placed: Placed,
}

/// A batch that is formed: what is new of its stripes, and the requests that store it.
#[derive(Drop)]
pub struct Formed {
    pub sealed: Sealed,
    pub fresh: FreshFlush,
    pub plan: WritePlan,
}

/// What a batch is formed for.
#[derive(Clone, Copy)]
pub struct Setting {
    pub geo: Geometry,
    /// The log of the client.
    pub log: LogId,
    /// The number of the batch, from 1.
    pub number: u64,
    /// The members that the lookups of its calls showed.
    pub members: Members,
    /// The log goes on behind this stripe; with none it goes on where it is.
    pub behind: Option<u64>,
}

/// The server that is left away by writers.
pub fn writers_out(members: &Members) -> Option<ServerId>
    ensures { result ≡ writers_out members.now.state }
{
    match members.state {
        State::Out(server) => Some(server),
        _ => None,
    }
}

/// The server that is left away by readers.
pub fn readers_out(members: &Members) -> Option<ServerId>
    ensures { result ≡ readers_out members.now.state }
{
    match members.state {
        State::Out(server) | State::Mending(server) => Some(server),
        State::Whole => None,
    }
}
