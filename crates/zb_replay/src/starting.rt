ghost use Rattle.std.specs.Prelude.{◌≡◌, ◌+◌, ◌≤◌, ◌^◌, ℕ, length, None, IsTrue, IsErrOf, IfOk};
ghost use Rattle.zb_outside.specs.Counts.{GoesOn, HasFault, Touches};
ghost use Rattle.zb_outside.specs.Runs.{IsSettled, SparesOthers};
ghost use Rattle.zb_tables.specs.Tables.{Tables};
ghost use Rattle.zb_types.specs.declared.geometry.Geometry.{Geometry as System};
ghost use Rattle.zb_spelling.specs.Unspelling.{sizes_of};
ghost use Rattle.zb_platter.specs.Says.{SaysTables};
ghost use Rattle.zb_replay.specs.Opening.{IsOpened, IsStart, IsUnread, IsWrong, LeavesTables, StandsOpen, open_stopped};
ghost use Rattle.zb_replay.specs.declared.pieces.OpenFault.TheVariants as fault;

use crate::node::ManagerNode;
use crate::opening::{first_manager, replay};
use crate::pieces::{OpenFault, ReadPieces};
use std::alloc::Global;
use zb_manager::Manager;
use zb_outside::Bay;
use zb_platter::{ManagerPlatter, ReadFault, read_behind, read_root};

// The tables of the checkpoint of platter 0, and what is known of the platter, whose fields are looked at in their order.
fn start<B: Bay>(alloc: Global, bay: &mut B) -> Result<(Manager, ManagerPlatter), OpenFault>
    ensures is { IsTrue B.tells → IfOk result (λ found. IsStart ((B.meaning bay.old).now.seen 0) found.1 found.0.tables) }
    ensures sizes { IfOk result (λ found. found.0.sizes ≡ sizes_of found.1.root.geo) }
    ensures holder { IfOk result (λ found. found.0.holder ≡ None) }
    ensures first { IfOk result (λ found. found.0.tables.next_entry ≡ found.1.root.first) }
    ensures high { IfOk result (λ found. found.1.root.first ≤ 2 ^ 48) }
    ensures number { IfOk result (λ found. found.1.journal.number ≡ found.1.root.first + length found.1.entries) }
    ensures foreign { IsTrue B.tells → (field : ℕ) → IsErrOf result (fault.Foreign field) → IsUnread ((B.meaning bay.old).now.seen 0) field }
    ensures alone { IsTrue B.tells → LeavesTables (B.meaning bay.old) (B.meaning bay.new) }
    ensures others { IsTrue B.tells → SparesOthers 0 (B.meaning bay.old) (B.meaning bay.new) }
    ensures touches { Touches B.counts B.follows 0 0 (open_stopped result) bay.old bay.new }
{
    let (root, bytes) = match read_root(alloc, bay) {
        Ok(found) => found,
        Err(ReadFault::Foreign { field }) => return Err(OpenFault::Foreign { field }),
        Err(ReadFault::NoMemory) => return Err(OpenFault::NoMemory),
        Err(ReadFault::Stopped) => return Err(OpenFault::Stopped),
    };
    let manager = match first_manager(alloc, &root, &bytes) {
        Ok(manager) => manager,
        Err(fault) => return Err(fault),
    };
    let platter = match read_behind(alloc, bay, root) {
        Ok(platter) => platter,
        Err(ReadFault::Foreign { field }) => return Err(OpenFault::Foreign { field }),
        Err(ReadFault::NoMemory) => return Err(OpenFault::NoMemory),
        Err(ReadFault::Stopped) => return Err(OpenFault::Stopped),
    };
    Ok((manager, platter))
}

impl ManagerNode {
    /// Opens the node of what platter 0 says: the tables of its checkpoint, into which the entries of the journal are taken one
    /// behind the other, each commit with the batch that is read from its pieces. It takes any bytes. Where the platter is
    /// settled and says tables, the node has these, and the platter stands under it. Nobody holds. Platter 0 and the stripes
    /// stay as they are.
    ///
    /// `Foreign` comes with the first wrong field alone: 1 to 6 of the root, 7 where the checkpoint's bytes are none of the
    /// first entry's, and 8 where something behind it begins as an entry and is none, or an entry's bytes are missing or the
    /// tables can't take it. `Unreachable` comes only where two servers that an entry needs don't serve, and `Stopped` only
    /// where a call of platter 0 failed.
    pub fn open<B: Bay, S: ReadPieces<B>>(
        alloc: Global,
        bay: &mut B,
        servers: &mut S,
    ) -> Result<ManagerNode, OpenFault>
        ensures opened { IsTrue B.tells → IfOk result (λ node. IsOpened (S.contents servers.old bay.old) ((B.meaning bay.old).now.seen 0) node) }
        ensures stands { IsTrue B.tells → (geo : System) → (tables : Tables) → IsSettled 0 (B.meaning bay.old).now → SaysTables geo (S.contents servers.old bay.old) ((B.meaning bay.old).now.seen 0) tables
            → IfOk result (λ node. StandsOpen geo (S.contents servers.old bay.old) tables node (B.meaning bay.new).now) }
        ensures holder { IfOk result (λ node. node.manager.holder ≡ None) }
        ensures foreign { IsTrue B.tells → (field : ℕ) → IsErrOf result (fault.Foreign field) → IsWrong (S.contents servers.old bay.old) ((B.meaning bay.old).now.seen 0) field }
        ensures stopped { IsErrOf result fault.Stopped → HasFault 0 (B.counts bay.old) (B.counts bay.new) }
        ensures contents { IsTrue B.tells → S.contents servers.new bay.new ≡ S.contents servers.old bay.old }
        ensures alone { IsTrue B.tells → LeavesTables (B.meaning bay.old) (B.meaning bay.new) }
        ensures goes_on { GoesOn B.counts B.follows bay.old bay.new }
    {
        let (mut manager, platter) = match start(alloc, bay) {
            Ok(found) => found,
            Err(fault) => return Err(fault),
        };
        let geo = platter.system();
        if let Err(fault) = replay(alloc, bay, servers, &geo, &mut manager, platter.entries()) {
            return Err(fault);
        }
        Ok(ManagerNode { manager, platter })
    }
}
