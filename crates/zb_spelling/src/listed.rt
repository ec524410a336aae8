ghost use Rattle.std.specs.Prelude.{◌≡◌, ◌<◌, ◌^◌, ◌++◌, ℕ, List, length, map, IfOk, OnOk};
ghost use Rattle.std.specs.List.{flat_map};
ghost use Rattle.std.specs.Option.{option_map};
ghost use Rattle.zb_numbers.specs.Fronts.{IsPrefixFree, ReadsFront};
ghost use Rattle.zb_numbers.specs.Numbers.{number_text};
ghost use Rattle.zb_spelling.specs.Spelling.{list_text};
ghost use Rattle.zb_spelling.specs.Reading.{AreItems, AreSome};

use std::alloc::Global;
use zb_numbers::{push_u32, split_u32};
use zb_types::{ByteList, Mem, NoMemory};

/// An item of a list of the tables that can be written.
pub(crate) trait Written {
    ghost text: { Self → List ℕ };

    /// Writes its bytes at the end, or a part of them where memory runs out.
    fn push(&self, alloc: Global, to: &mut ByteList) -> Mem<()>
        ensures { OnOk result (to.new ≡ to.old ++ text self.now) };
}

/// An item of a list of the tables that can be read. Contracts see it as the tables have it.
pub(crate) trait Readable: Drop {
    ghost Plain: { Type 0 };

    ghost plain: { Self → Plain };

    ghost Is: { Plain → Type 0 };

    ghost text: { Plain → List ℕ };

    /// The item at the front of these bytes. None where none stands there.
    fn read(alloc: Global, bytes: &[u8]) -> Mem<Option<(Self, &[u8])>>
        ensures { IfOk result (λ found.
            ReadsFront Is text bytes.now (option_map (λ f. (plain f.0, f.1.now)) found)) };
}

/// Writes how many items a list has. A count of 2^32 or more has no room.
pub(crate) fn push_count(alloc: Global, to: &mut ByteList, count: usize) -> Mem<()>
    ensures text { OnOk result (to.new ≡ to.old ++ number_text 4 count) }
    ensures room { OnOk result (count < 2 ^ 32) }
{
    if count > u32::MAX as usize {
        return Err(NoMemory);
    }
    push_u32(alloc, to, count as u32)
}

fn push_all<T: Written>(alloc: Global, to: &mut ByteList, items: &[T]) -> Mem<()>
    ensures { OnOk result (to.new ≡ to.old ++ flat_map T.text items.now) }
{
    for item in items {
        item.push(alloc, to)?;
    }
    Ok(())
}

/// Writes items behind their count, or a part of that where memory runs out, or where a count has no room.
pub(crate) fn push_list<T: Written>(alloc: Global, to: &mut ByteList, items: &[T]) -> Mem<()>
    ensures text { OnOk result (to.new ≡ to.old ++ list_text T.text items.now) }
    ensures count { OnOk result (length items.now < 2 ^ 32) }
{
    push_count(alloc, to, items.len())?;
    push_all(alloc, to, items)
}

// So many items. None where fewer stand there.
fn read_some<T: Readable>(alloc: Global, count: u32, bytes: &[u8]) -> Mem<Option<(Vec<T>, &[u8])>>
    requires { IsPrefixFree T.Is T.text }
    ensures { IfOk result (λ found.
        ReadsFront (AreSome T.Is count) (flat_map T.text) bytes.now (option_map (λ f. (map T.plain f.0.items, f.1.now)) found)) }
{
    let mut items = Vec::new(alloc);
    let mut rest = bytes;
    for _ in 0..count {
        let Some((item, behind)) = T::read(alloc, rest)? else {
            return Ok(None);
        };
        items.push(item)?;
        rest = behind;
    }
    Ok(Some((items, rest)))
}

/// The items behind their count at the front of these bytes. None where no such list stands there.
pub(crate) fn read_list<T: Readable>(alloc: Global, bytes: &[u8]) -> Mem<Option<(Vec<T>, &[u8])>>
    requires { IsPrefixFree T.Is T.text }
    ensures { IfOk result (λ found.
        ReadsFront (AreItems T.Is) (list_text T.text) bytes.now (option_map (λ f. (map T.plain f.0.items, f.1.now)) found)) }
{
    if bytes.len() < 4 {
        return Ok(None);
    }
    let (count, rest) = split_u32(bytes);
    let found = read_some(alloc, count, rest)?;
    Ok(found)
}
