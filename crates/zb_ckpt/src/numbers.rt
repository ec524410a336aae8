ghost use Rattle.std.specs.Prelude.{◌≡◌, ℕ, IsErrOf, IfOk, Some};
ghost use Rattle.zb_ckpt.specs.Root.{HaveRoom, IsRoot, first_wrong, numbers_of, payload_text, root_text};
ghost use Rattle.zb_ckpt.specs.Says.{HasWrong};
ghost use Rattle.zb_ckpt.specs.declared.faults.CkptFault.TheVariants as fault;

use crate::faults::CkptFault;
use crate::root::Root;
use zb_numbers::{split_u32, split_u64};
use zb_types::Geometry;

// The letters ZBRM.
const LETTERS: u32 = 1_514_295_885;

const LONGEST: u64 = 1_099_511_627_776;

const LAST: u64 = 281_474_976_710_656;

// The numbers in the root cell.
#[derive(Clone, Copy)]
pub(crate) struct Numbers {
    pub(crate) head: u32,
    pub(crate) format: u32,
    pub(crate) slot: u8,
    pub(crate) servers: u8,
    pub(crate) clients: u8,
    pub(crate) zero: u8,
    pub(crate) fragment: u32,
    pub(crate) block: u32,
    pub(crate) slots: u32,
    pub(crate) length: u64,
    pub(crate) first: u64,
}

/// The payload of a root.
pub(crate) fn spelled(root: &Root) -> [u8; 40]
    ensures { result ≡ root_text root.now }
{
    let h = LETTERS.to_be_bytes();
    let v = 1u32.to_be_bytes();
    let f = root.geo.fragment.to_be_bytes();
    let b = root.geo.block.to_be_bytes();
    let s = root.geo.slots.to_be_bytes();
    let l = root.length.to_be_bytes();
    let n = root.first.to_be_bytes();
    [
        h[0],
        h[1],
        h[2],
        h[3],
        v[0],
        v[1],
        v[2],
        v[3],
        root.slot,
        root.geo.servers as u8,
        root.geo.clients as u8,
        0,
        f[0],
        f[1],
        f[2],
        f[3],
        b[0],
        b[1],
        b[2],
        b[3],
        s[0],
        s[1],
        s[2],
        s[3],
        l[0],
        l[1],
        l[2],
        l[3],
        l[4],
        l[5],
        l[6],
        l[7],
        n[0],
        n[1],
        n[2],
        n[3],
        n[4],
        n[5],
        n[6],
        n[7],
    ]
}

// The numbers of a payload.
fn numbers_in(payload: &[u8; 40]) -> Numbers
    ensures text { payload_text result ≡ payload.now }
    ensures room { HaveRoom result }
{
    let (head, rest) = split_u32(payload);
    let (format, rest) = split_u32(rest);
    let (bytes, rest) = rest.split_at(4);
    let (fragment, rest) = split_u32(rest);
    let (block, rest) = split_u32(rest);
    let (slots, rest) = split_u32(rest);
    let (length, rest) = split_u64(rest);
    let (first, _) = split_u64(rest);
    Numbers {
        head,
        format,
        slot: bytes[0],
        servers: bytes[1],
        clients: bytes[2],
        zero: bytes[3],
        fragment,
        block,
        slots,
        length,
        first,
    }
}

// The root with these numbers, or the first wrong field.
fn root_of(n: &Numbers) -> Result<Root, u8>
    ensures root { IfOk result (λ root. numbers_of root ≡ n.now) }
    ensures is { IfOk result (λ root. IsRoot root) }
    ensures wrong { (field : ℕ) → IsErrOf result field → first_wrong n.now ≡ Some field }
{
    if n.head != LETTERS {
        return Err(1);
    }
    if n.format != 1 {
        return Err(2);
    }
    if n.slot > 1 {
        return Err(3);
    }
    let sizes = Geometry::new(
        u32::from(n.servers),
        u32::from(n.clients),
        n.fragment,
        n.block,
        n.slots,
    );
    let Ok(geo) = sizes else {
        return Err(4);
    };
    if n.zero != 0 {
        return Err(4);
    }
    if n.length > LONGEST {
        return Err(5);
    }
    if n.first == 0 || n.first > LAST {
        return Err(6);
    }
    Ok(Root {
        slot: n.slot,
        geo,
        length: n.length,
        first: n.first,
    })
}

/// The root of this payload.
pub(crate) fn root_in(payload: &[u8; 40]) -> Result<Root, CkptFault>
    ensures root { IfOk result (λ root. root_text root ≡ payload.now) }
    ensures is { IfOk result (λ root. IsRoot root) }
    ensures wrong { (field : ℕ) → IsErrOf result (fault.Foreign field) → HasWrong payload.now field }
    ensures memory { IsErrOf result fault.NoMemory → ⊥ }
    ensures stopped { IsErrOf result fault.Stopped → ⊥ }
{
    let numbers = numbers_in(payload);
    match root_of(&numbers) {
        Ok(root) => Ok(root),
        Err(field) => Err(CkptFault::Foreign { field }),
    }
}
