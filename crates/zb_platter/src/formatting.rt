ghost use Rattle.std.specs.Prelude.{◌≡◌, ◌≤◌, ◌<◌, ◌+◌, ◌^◌, ℕ, length, IsTrue, IsErrOf, IfOk, OnOk, is_err};
ghost use Rattle.zb_outside.specs.Counts.{Touches};
ghost use Rattle.zb_outside.specs.Runs.{SparesOthers};
ghost use Rattle.zb_ckpt.specs.Says.{pages_of};
ghost use Rattle.zb_tables.specs.Tables.{Tables, Contents};
ghost use Rattle.zb_spelling.specs.Spelling.{spelling_of_tables};
ghost use Rattle.zb_spelling.specs.Unspelling.{IsCheckpoint, sizes_of};
ghost use Rattle.zb_platter.specs.Faults.{is_stopped};
ghost use Rattle.zb_platter.specs.Formatting.{AreZeros, BeginsTold, first_platter};
ghost use Rattle.zb_platter.specs.Standing.{Stands};
ghost use Rattle.zb_platter.specs.declared.faults.NodeFault.TheVariants as fault;

use crate::faults::NodeFault;
use crate::platter::{LONGEST, ManagerPlatter};
use std::alloc::Global;
use zb_ckpt::{Root, write};
use zb_journal::Journal;
use zb_outside::{Bay, write_synced};
use zb_types::{ByteList, Failed, Geometry};

/// The bytes before the journal's end, from the platter's start on.
const FRONT: usize = 69_632;

// Makes platter 0 these bytes alone.
fn begin_with<B: Bay>(bay: &mut B, bytes: &[u8]) -> Result<(), Failed>
    requires size { length bytes.now ≤ 2 ^ 40 }
    ensures told { IsTrue B.tells → BeginsTold bytes.now result (B.meaning bay.old) (B.meaning bay.new) }
    ensures others { IsTrue B.tells → SparesOthers 0 (B.meaning bay.old) (B.meaning bay.new) }
    ensures touches { Touches B.counts B.follows 0 1 (is_err result) bay.old bay.new }
{
    bay.blank(0)?;
    write_synced(bay, 0, 0, bytes)
}

// So many zeros.
fn zeros(alloc: Global, count: usize) -> Result<Vec<u8>, NodeFault>
    ensures zeros { IfOk result (λ bytes. AreZeros count bytes.items) }
    ensures memory { (e : NodeFault) → IsErrOf result e → e ≡ fault.NoMemory }
{
    Ok(vec![in alloc; 0; count]?)
}

/// Makes platter 0 that of tables with these bytes, whose next entry has number 1, whatever it held: it is emptied, its cell
/// and its journal are filled with zeros, and the checkpoint goes into slot 0. After Ok the platter stands as is known, with
/// these tables and no entry. The other platters are as before at each moment.
///
/// `NoMemory` comes where there is none for the zeros, or where there are more than 2^40 bytes, and leaves the platter as it
/// was; `Stopped` only where a call of the platter failed.
pub fn format<B: Bay>(
    alloc: Global,
    bay: &mut B,
    geo: &Geometry,
    bytes: &ByteList,
) -> Result<ManagerPlatter, NodeFault>
    ensures told { IsTrue B.tells → (tables : Tables) → IsCheckpoint (sizes_of geo.now) tables → tables.next_entry ≡ 1 → spelling_of_tables tables ≡ bytes.now
        → IfOk result (λ platter. (contents : Contents) → Stands platter contents tables (B.meaning bay.new).now) }
    ensures begins { IfOk result (λ platter. platter ≡ first_platter geo.now bytes.now) }
    ensures worn { (field : ℕ) → IsErrOf result (fault.Worn field) → ⊥ }
    ensures unwritten { IsErrOf result fault.NoMemory → bay.new ≡ bay.old }
    ensures others { IsTrue B.tells → SparesOthers 0 (B.meaning bay.old) (B.meaning bay.new) }
    ensures touches { Touches B.counts B.follows 0 (pages_of (length bytes.now) + 4) (is_stopped result) bay.old bay.new }
{
    if bytes.len() > LONGEST {
        return Err(NodeFault::NoMemory);
    }
    let front = zeros(alloc, FRONT)?;
    begin_with(bay, front.as_slice())?;
    let none = Root {
        slot: 1,
        geo: *geo,
        length: 0,
        first: 1,
    };
    let Ok(root) = write(bay, &none, bytes) else {
        return Err(NodeFault::Stopped);
    };
    Ok(ManagerPlatter {
        root,
        journal: Journal {
            place: 0,
            number: 1,
        },
        entries: Vec::new(alloc),
    })
}
