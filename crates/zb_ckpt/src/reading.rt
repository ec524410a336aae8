ghost use Rattle.std.specs.Prelude.{◌≡◌, ◌≤◌, ◌<◌, ◌+◌, ◌^◌, ℕ, length, IsTrue, IsErrOf, IfOk};
ghost use Rattle.zb_outside.specs.Counts.{Touches};
ghost use Rattle.zb_outside.specs.Ranges.{Reads};
ghost use Rattle.zb_ckpt.specs.Says.{BytesStand};
ghost use Rattle.zb_ckpt.specs.Reading.{LeftAlone};
ghost use Rattle.zb_ckpt.specs.Faults.{is_stopped};
ghost use Rattle.zb_ckpt.specs.declared.faults.CkptFault.TheVariants as fault;

use crate::faults::CkptFault;
use crate::filling::{PAGE, START, page_len};
use std::alloc::Global;
use zb_outside::Bay;

// So many bytes of platter 0, from a place on.
fn read_bytes<B: Bay>(
    alloc: Global,
    bay: &mut B,
    place: u64,
    len: usize,
) -> Result<Vec<u8>, CkptFault>
    requires range { place + len ≤ 2 ^ 63 }
    ensures told { IsTrue B.tells → LeftAlone (B.meaning bay.old) (B.meaning bay.new) }
    ensures read { IsTrue B.tells → IfOk result (λ bytes. Reads ((B.meaning bay.old).now.seen 0) place bytes.items) }
    ensures size { IfOk result (λ bytes. length bytes.items ≡ len) }
    ensures foreign { (field : ℕ) → IsErrOf result (fault.Foreign field) → ⊥ }
    ensures touches { Touches B.counts B.follows 0 0 (is_stopped result) bay.old bay.new }
{
    let mut bytes = vec![in alloc; 0; len]?;
    bay.read_at(0, place, bytes.as_mut_slice())?;
    Ok(bytes)
}

/// So many bytes of this slot, page by page.
pub(crate) fn read_pages<B: Bay>(
    alloc: Global,
    bay: &mut B,
    slot: u8,
    len: usize,
) -> Result<Vec<u8>, CkptFault>
    requires slot { slot < 2 }
    requires size { len ≤ 2 ^ 40 }
    ensures told { IsTrue B.tells → LeftAlone (B.meaning bay.old) (B.meaning bay.new) }
    ensures stand { IsTrue B.tells → IfOk result (λ bytes. BytesStand ((B.meaning bay.old).now.seen 0) slot bytes.items) }
    ensures size { IfOk result (λ bytes. length bytes.items ≡ len) }
    ensures foreign { (field : ℕ) → IsErrOf result (fault.Foreign field) → ⊥ }
    ensures touches { Touches B.counts B.follows 0 0 (is_stopped result) bay.old bay.new }
{
    let mut bytes = Vec::new(alloc);
    let pages = (len + (PAGE - 1)) / PAGE;
    for page in 0..pages {
        let count = page_len(len - page * PAGE);
        let place = START + (2 * page as u64 + u64::from(slot)) * PAGE as u64;
        let part = read_bytes(alloc, bay, place, count)?;
        bytes.extend_from_slice(part.as_slice())?;
    }
    Ok(bytes)
}
