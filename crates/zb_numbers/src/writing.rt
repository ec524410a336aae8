ghost use Rattle.std.specs.Prelude.{◌≡◌, ◌++◌, OnOk, OnErr};
ghost use Rattle.zb_numbers.specs.Numbers.{number_text, IsBelow};

use byteorder::{BigEndian, ByteOrder};
use std::alloc::Global;
use std::mem;
use zb_types::{ByteList, Mem, NoMemory};

/// Writes these bytes at the end.
pub fn append(alloc: Global, to: &mut ByteList, bytes: &[u8]) -> Mem<()>
    ensures ok { OnOk result (to.new ≡ to.old ++ bytes.now) }
    ensures err { OnErr result (to.new ≡ to.old) }
{
    let list = mem::replace(to, ByteList::of(Vec::new(alloc)));
    let mut items = list.into_items();
    let added = items.extend_from_slice(bytes);
    *to = ByteList::of(items);
    added?;
    Ok(())
}

/// Writes a number in two bytes at the end.
pub fn push_u16(alloc: Global, to: &mut ByteList, number: u16) -> Mem<()>
    ensures ok { OnOk result (to.new ≡ to.old ++ number_text 2 number) }
    ensures err { OnErr result (to.new ≡ to.old) }

    // What was written has room in its bytes.
    ensures room { IsBelow 2 number }
{
    let mut text = [0; 2];
    BigEndian::write_u16(&mut text, number);
    append(alloc, to, &text)
}

/// Writes a number in four bytes at the end.
pub fn push_u32(alloc: Global, to: &mut ByteList, number: u32) -> Mem<()>
    ensures ok { OnOk result (to.new ≡ to.old ++ number_text 4 number) }
    ensures err { OnErr result (to.new ≡ to.old) }

    // What was written has room in its bytes.
    ensures room { IsBelow 4 number }
{
    let mut text = [0; 4];
    BigEndian::write_u32(&mut text, number);
    append(alloc, to, &text)
}

/// Writes a number in eight bytes at the end.
pub fn push_u64(alloc: Global, to: &mut ByteList, number: u64) -> Mem<()>
    ensures ok { OnOk result (to.new ≡ to.old ++ number_text 8 number) }
    ensures err { OnErr result (to.new ≡ to.old) }

    // What was written has room in its bytes.
    ensures room { IsBelow 8 number }
{
    let mut text = [0; 8];
    BigEndian::write_u64(&mut text, number);
    append(alloc, to, &text)
}
