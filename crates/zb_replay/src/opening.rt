ghost use Rattle.std.specs.Prelude.{◌≡◌, ◌+◌, min, ℕ, [], length, None, IsTrue, IsErrOf, IfOk, OnOk};
ghost use Rattle.zb_outside.specs.Counts.{GoesOn};
ghost use Rattle.zb_tables.specs.Tables.{Tables, last_value};
ghost use Rattle.zb_tables.specs.Taking.{AreTaken};
ghost use Rattle.zb_spelling.specs.Unspelling.{sizes_of};
ghost use Rattle.zb_replay.specs.Opening.{HasRefused, IsFirst, LeavesTables};
ghost use Rattle.zb_replay.specs.Taking.{SameOwner};
ghost use Rattle.zb_replay.specs.declared.pieces.OpenFault.TheVariants as fault;

use crate::pieces::{OpenFault, ReadPieces};
use crate::taking::take;
use std::alloc::Global;
use zb_ckpt::Root;
use zb_entries::Entry;
use zb_manager::Manager;
use zb_outside::Bay;
use zb_types::{ByteList, Geometry};

/// Takes the entries of the journal into the tables, one behind the other, each with the batch that its pieces have. Platter 0
/// and the stripes stay as they are.
///
/// `Foreign`, with field 8, comes where an entry's bytes are missing, or the tables can't take it. `Unreachable` comes only
/// where two servers that are needed don't serve. After an error the tables are of no use.
pub fn replay<B: Bay, S: ReadPieces<B>>(
    alloc: Global,
    bay: &mut B,
    servers: &mut S,
    geo: &Geometry,
    manager: &mut Manager,
    entries: &[Entry],
) -> Result<(), OpenFault>
    requires sizes { manager.old.sizes ≡ sizes_of geo.now }
    ensures taken { IsTrue B.tells → OnOk result (AreTaken manager.old.sizes (S.contents servers.old bay.old) [] manager.old.tables entries.now manager.new.tables) }
    ensures refused { IsTrue B.tells → (field : ℕ) → IsErrOf result (fault.Foreign field) → (field ≡ 8) × HasRefused manager.old.sizes (S.contents servers.old bay.old) manager.old.tables entries.now }
    ensures stopped { IsErrOf result fault.Stopped → ⊥ }
    ensures next { (number : ℕ) → manager.old.tables.next_entry ≡ min number last_value → OnOk result (manager.new.tables.next_entry ≡ min (number + length entries.now) last_value) }
    ensures same { SameOwner manager.old manager.new }
    ensures contents { IsTrue B.tells → S.contents servers.new bay.new ≡ S.contents servers.old bay.old }
    ensures alone { IsTrue B.tells → LeavesTables (B.meaning bay.old) (B.meaning bay.new) }
    ensures goes_on { GoesOn B.counts B.follows bay.old bay.new }
{
    for (i, entry) in entries.iter().enumerate() {
        let (before, _) = entries.split_at(i);
        if let Err(fault) = take(alloc, bay, servers, geo, manager, before, entry) {
            return Err(fault);
        }
    }
    Ok(())
}

/// The file manager of the checkpoint with these bytes, whose next entry is the first behind it; nobody holds.
///
/// `Foreign`, with field 7, comes where the bytes are no checkpoint of this system, or not that of the first entry.
pub fn first_manager(alloc: Global, root: &Root, bytes: &ByteList) -> Result<Manager, OpenFault>
    ensures is { IfOk result (λ manager. IsFirst root.now bytes.now manager.tables) }
    ensures sizes { IfOk result (λ manager. manager.sizes ≡ sizes_of root.now.geo) }
    ensures holder { IfOk result (λ manager. manager.holder ≡ None) }
    ensures none { (field : ℕ) → IsErrOf result (fault.Foreign field) → (field ≡ 7) × ((t : Tables) → IsFirst root.now bytes.now t → ⊥) }
    ensures stopped { IsErrOf result fault.Stopped → ⊥ }
{
    let Some(manager) = Manager::unspell(alloc, &root.geo, bytes.slice())? else {
        return Err(OpenFault::Foreign { field: 7 });
    };
    if manager.next_entry() != root.first {
        return Err(OpenFault::Foreign { field: 7 });
    }
    Ok(manager)
}
