ghost use Rattle.std.specs.Prelude.{◌≡◌, ◌≤◌, ◌+◌, ◌^◌, ℕ, length, IsTrue, IfOk};
ghost use Rattle.zb_outside.specs.Counts.{Touches};
ghost use Rattle.zb_outside.specs.Ranges.{Reads};
ghost use Rattle.zb_slots.specs.Reading.{LeftAlone, is_stopped};

use crate::read_fault::ReadFault;
use std::alloc::Global;
use zb_outside::Bay;

// So many bytes of a platter, from a place on.
pub fn read_bytes<B: Bay>(
    alloc: Global,
    bay: &mut B,
    platter: usize,
    place: u64,
    len: u32,
) -> Result<Vec<u8>, ReadFault>
    requires platter { platter ≤ 255 }
    requires range { place + len ≤ 2 ^ 63 }
    ensures told { IsTrue B.tells → LeftAlone platter (B.meaning bay.old) (B.meaning bay.new) }
    ensures read { IsTrue B.tells → IfOk result (λ bytes. Reads ((B.meaning bay.old).now.seen platter) place bytes.items) }
    ensures size { IfOk result (λ bytes. length bytes.items ≡ len) }
    ensures touches { Touches B.counts B.follows platter 0 (is_stopped result) bay.old bay.new }
{
    let mut bytes = vec![in alloc; 0; len as usize]?;
    bay.read_at(platter, place, bytes.as_mut_slice())?;
    Ok(bytes)
}
