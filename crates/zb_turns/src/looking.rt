ghost use Rattle.std.specs.Prelude.{◌≡◌, if◌then◌else◌, IfOk, OnOk, OnErr, Some, None};
ghost use Rattle.zb_manager.specs.Seen.{held_by};
ghost use Rattle.zb_turns.specs.Turns.{all_found, blocker_in, other_holder};

use std::alloc::Global;
use zb_basis::{Ask, FoundList};
use zb_manager::{Blocked, Manager};
use zb_types::{Mem, NoMemory};

/// What is found for each that is asked, in order.
fn find_all(alloc: Global, manager: &Manager, asks: &[Ask]) -> Mem<FoundList>
    ensures { IfOk result (λ list. list ≡ all_found manager.now.tables asks.now) }
{
    let mut list = FoundList::new(alloc)?;
    for ask in asks {
        list.push(manager.lookup(alloc, ask.fid, ask.first, ask.count)?)?;
    }
    Ok(list)
}

/// A client's lookup: versions, lengths and pointers, one for each that is asked. With `hold` the client holds the file
/// manager from then on; it is blocked exactly where another client holds, and then nothing changes, nor where memory runs
/// out.
pub fn look_up(
    alloc: Global,
    manager: &mut Manager,
    client: u8,
    hold: bool,
    asks: &[Ask],
) -> Mem<Result<FoundList, Blocked>>
    ensures blocked { IfOk result (λ turn. blocker_in turn ≡ (if hold then other_holder client manager.old.holder else None)) }
    ensures found { IfOk result (λ turn. IfOk turn (λ list. list ≡ all_found manager.old.tables asks.now)) }
    ensures held { IfOk result (λ turn. OnOk turn (manager.new ≡ (if hold then held_by (Some client) manager.old else manager.old))) }
    ensures same { IfOk result (λ turn. OnErr turn (manager.new ≡ manager.old)) }
    ensures err { OnErr result (manager.new ≡ manager.old) }
{
    let found = find_all(alloc, manager, asks)?;
    if !hold {
        return Ok(Ok(found));
    }
    match manager.hold(client) {
        Ok(()) => Ok(Ok(found)),
        Err(blocked) => Ok(Err(blocked)),
    }
}
