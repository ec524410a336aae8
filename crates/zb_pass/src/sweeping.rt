ghost use Rattle.std.specs.Prelude.{◌≡◌, ◌<◌, ◌≤◌, IfSome, drop, length, not, filter, Option};
ghost use Rattle.std.specs.List.{list_any};
ghost use Rattle.zb_pass.specs.Sweeping.{again_after, asks_on, deleted, deletes, holds, is_stray, is_up, is_upto, may_write, passes_over, rest_of, strays, swept};

use crate::fetching::serves;
use crate::work::{Next, Sweeping, Work};
use zb_types::{FragId, FragList, Geometry, HeldUse, LogUse, Response, ServerId, Status};

/// How many fragments a server names at most at once.
const MOST_NAMED: usize = 256;

/// Whether this is the stripe of a fragment.
fn holds(id: FragId, held: &HeldUse) -> bool
    ensures { result ≡ holds id held.now }
{
    held.log.0 == id.log.0 && held.stripe == id.stripe
}

/// Whether the stripe of a fragment is held.
fn is_held(id: FragId, held: &[HeldUse]) -> bool
    ensures { result ≡ list_any (holds id) held.now }
{
    held.iter().any(|stripe| holds(id, stripe))
}

/// Whether a log's last committed stripe is at this one or below, or it has none.
fn is_upto(stripe: u64, last: Option<u64>) -> bool
    ensures { result ≡ is_upto stripe last }
{
    match last {
        None => true,
        Some(last) => last <= stripe,
    }
}

/// Whether a log may go on in the stripe of a fragment, or write it.
fn may_write(id: FragId, log: &LogUse) -> bool
    ensures { result ≡ may_write id log.now }
{
    log.live && log.log.0 == id.log.0 && is_upto(id.stripe, log.last)
}

/// Whether a log may write the stripe of a fragment.
fn is_written(id: FragId, logs: &[LogUse]) -> bool
    ensures { result ≡ list_any (may_write id) logs.now }
{
    logs.iter().any(|log| may_write(id, log))
}

/// Whether a fragment is a stray.
fn is_stray(status: &Status, id: FragId) -> bool
    ensures { result ≡ is_stray status.now id }
{
    if id.log.0 == 0 || id.log.0 >= status.next {
        return false;
    }
    !is_held(id, status.held.slice()) && !is_written(id, status.logs.slice())
}

/// The strays among fragments, without memory.
fn strays(status: &Status, ids: FragList) -> FragList
    ensures { result ≡ strays status.now ids }
{
    let mut ids = ids.into_items();
    ids.retain(|id| is_stray(status, *id));
    FragList::of(ids)
}

/// Where the same server is asked again, once it named these.
fn again_after(ids: &[FragId]) -> Option<FragId>
    ensures { result ≡ again_after ids.now }
{
    if ids.len() != MOST_NAMED {
        return None;
    }
    match ids.get(ids.len() - 1) {
        Some(id) => Some(*id),
        None => None,
    }
}

/// The next server is asked, and behind the last one the pass ends.
fn pass_over(geo: &Geometry, sweep: Sweeping) -> Next
    ensures { result ≡ passes_over geo.now.servers sweep }
{
    if u32::from(sweep.server.0) < geo.servers {
        let server = ServerId(sweep.server.0 + 1);
        return Next::Work(Work::Sweep {
            sweep: Sweeping { server, ..sweep },
            after: None,
        });
    }
    Next::End(sweep.line)
}

/// The same server is asked again behind this fragment, or else the next one.
fn ask_on(geo: &Geometry, sweep: Sweeping, again: Option<FragId>) -> Next
    ensures { result ≡ asks_on geo.now.servers sweep again }
{
    match again {
        None => pass_over(geo, sweep),
        Some(id) => Next::Work(Work::Sweep {
            sweep,
            after: Some(id),
        }),
    }
}

/// These strays are deleted, where there are some.
fn delete(geo: &Geometry, sweep: Sweeping, left: FragList, again: Option<FragId>) -> Next
    ensures { result ≡ deletes geo.now.servers sweep left again }
{
    if left.len() == 0 {
        return ask_on(geo, sweep, again);
    }
    Next::Work(Work::Delete { sweep, left, again })
}

/// Takes what a server named: the strays among it are deleted. A server that doesn't serve is passed over. It takes no
/// memory.
pub(crate) fn swept(geo: &Geometry, sweep: Sweeping, response: Response, serving: u32) -> Next
    ensures { result ≡ swept geo.now.servers sweep response serving }
{
    let Response::Ids(ids) = response else {
        return pass_over(geo, sweep);
    };
    if !serves(serving, sweep.server) {
        return pass_over(geo, sweep);
    }
    let again = again_after(ids.slice());
    let left = strays(&sweep.status, ids);
    delete(geo, sweep, left, again)
}

/// Whether a server answers as one that is up.
fn is_up(response: &Response) -> bool
    ensures { result ≡ is_up response.now }
{
    !matches!(response, Response::Down | Response::Blank)
}

/// The rest of some fragments.
fn rest_of(left: FragList) -> FragList
    ensures { result ≡ rest_of left }
{
    let mut items = left.into_items();
    if !items.is_empty() {
        items.remove(0);
    }
    FragList::of(items)
}

/// Takes the answer to a delete. A server that doesn't answer as up, or doesn't serve, is passed over. It takes no memory.
pub(crate) fn deleted(
    geo: &Geometry,
    sweep: Sweeping,
    left: FragList,
    again: Option<FragId>,
    response: &Response,
    serving: u32,
) -> Next
    ensures { result ≡ deleted geo.now.servers sweep left again response.now serving }
{
    if !is_up(response) || !serves(serving, sweep.server) {
        return pass_over(geo, sweep);
    }
    delete(geo, sweep, rest_of(left), again)
}
