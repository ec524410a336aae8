ghost use Rattle.std.specs.Prelude.{◌≡◌, true, false, Some, Err, IsTrue, IfOk, IfErr};
ghost use Rattle.zb_outside.specs.Counts.{Touches};
ghost use Rattle.zb_outside.specs.Runs.{SparesOthers};
ghost use Rattle.zb_holding.specs.Rules.{AreTold, known_refusal, refusal_of};
ghost use Rattle.zb_fragstore.specs.Seen.{IsStoreOf, is_there, size_in, known, holding};
ghost use Rattle.zb_fragstore.specs.Answers.{HasStopped, is_stopped};
ghost use Rattle.zb_fragstore.specs.Changing.{map_in, IsOpen};
ghost use Rattle.zb_fragstore.specs.Reading.{IsLookedAt};
ghost use Rattle.zb_server.specs.Asking.{FitsSystem, most_writes};
ghost use Rattle.zb_server.specs.Answering.{done, said, IsKnown, AreSizesLeft, Answers};

use std::alloc::Global;
use zb_fragstore::FragStore;
use zb_outside::Bay;
use zb_types::{FragId, Request, Response, StoreFault};

// The names above this one, as an answer.
fn identify(store: &FragStore, alloc: Global, after: Option<FragId>) -> Result<Response, StoreFault>
    ensures ids { IfOk result (AreTold (is_there store.now) after) }
    ensures fault { IfErr result (λ fault. fault ≡ StoreFault.NoMemory) }
{
    match store.identify(alloc, after) {
        Ok(ids) => Ok(Response::Ids(ids)),
        Err(_) => Err(StoreFault::NoMemory),
    }
}

// What a call that gives nothing answers.
fn done(outcome: Result<(), StoreFault>) -> Result<Response, StoreFault>
    ensures { result ≡ done outcome }
{
    outcome?;
    Ok(Response::Done)
}

// Whether the platter stopped.
pub fn has_stopped(answered: &Result<Response, StoreFault>) -> bool
    ensures stopped { result ≡ true → HasStopped answered.now }
    ensures others { result ≡ false → HasStopped answered.now → ⊥ }
{
    matches!(answered, Err(StoreFault::Stopped))
}

// What a node answers by what its store did.
pub fn said(answered: Result<Response, StoreFault>) -> Response
    ensures { result ≡ said answered }
{
    match answered {
        Ok(response) => response,
        Err(fault) => Response::Refused(fault),
    }
}

// What a store answers to a request of this generation.
pub fn answer<B: Bay>(
    store: &mut FragStore,
    alloc: Global,
    bay: &mut B,
    generation: u64,
    request: &Request,
) -> Result<Response, StoreFault>
    requires { FitsSystem store.old.geo request.now }
    ensures told { IsTrue B.tells → IsOpen store.old (B.meaning bay.old).now
        → Answers store.old generation request.now store.new result (B.meaning bay.old) (B.meaning bay.new) }
    ensures looked { IsTrue B.tells → IsOpen store.old (B.meaning bay.old).now → (fault : StoreFault)
        → refusal_of (holding store.old (map_in store.old (B.meaning bay.old).now)) generation request.now ≡ Some fault
        → IsLookedAt store.old.server.0 (B.meaning bay.old) (B.meaning bay.new) }
    ensures system { IsStoreOf store.old.geo store.old.server store.new }
    ensures refused { (fault : StoreFault) → known_refusal (known store.old) generation request.now ≡ Some fault
        → (result ≡ Err fault) × (bay.new ≡ bay.old) × (store.new ≡ store.old) }
    ensures known { (HasStopped result → ⊥) → IsKnown store.old generation request.now store.new (said result) }
    ensures sizes { (HasStopped result → ⊥) → AreSizesLeft request.now (said result) (size_in store.old) (size_in store.new) }
    ensures others { IsTrue B.tells → SparesOthers store.old.server.0 (B.meaning bay.old) (B.meaning bay.new) }
    ensures touches { Touches B.counts B.follows store.old.server.0 (most_writes request.now) (is_stopped result) bay.old bay.new }
{
    match request {
        Request::Store { id, bytes, class } => {
            done(store.store(alloc, bay, *id, bytes.slice(), *class, generation))
        }
        Request::Append { id, place, bytes } => {
            done(store.append(bay, *id, *place, bytes.slice(), generation))
        }
        Request::Parity {
            id,
            lengths,
            bytes,
            class,
        } => {
            let (lengths, bytes) = (lengths.slice(), bytes.slice());
            done(store.replace_parity(alloc, bay, *id, lengths, bytes, *class, generation))
        }
        Request::Retrieve { id, place, len } => {
            store.retrieve(alloc, bay, *id, *place, *len, generation)
        }
        Request::Delete { id } => done(store.delete(bay, *id)),
        Request::Identify { after } => identify(store, alloc, *after),
        Request::Fence { generation } => done(store.fence(bay, *generation)),
    }
}
