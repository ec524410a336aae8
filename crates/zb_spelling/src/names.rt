ghost use Rattle.std.specs.Prelude.{◌≡◌, ◌≤◌, ◌++◌, ◌∷◌, ℕ, List, length, IfOk, OnOk};
ghost use Rattle.std.specs.Option.{option_map};
ghost use Rattle.zb_types.specs.Names.{Entry as PlainEntry};
ghost use Rattle.zb_numbers.specs.Fronts.{ReadsFront};
ghost use Rattle.zb_numbers.specs.Numbers.{number_text};
ghost use Rattle.zb_batch.specs.Reading.{IsPath};
ghost use Rattle.zb_batch.specs.Spelling.{path_text};
ghost use Rattle.zb_names.specs.Shown.{seen};
ghost use Rattle.zb_spelling.specs.Spelling.{entry_text, kind_of_entry, list_text, name_text, number_of_entry};
ghost use Rattle.zb_spelling.specs.Reading.{IsEntry, IsEntryOf, IsName, shown_name};

use crate::listed::{Readable, Written, push_list};
use std::alloc::Global;
use zb_names::{Entry, Names};
use zb_numbers::{append, push_u16, push_u32, split_u16, split_u32};
use zb_types::{ByteList, Fid, Mem, NoMemory, Path};

/// How many bytes a kind and a number take.
pub(crate) const TAGGED: usize = 5;

/// The kind in the first byte, the number in the next four, and what stands behind them.
pub(crate) fn split_tagged(bytes: &[u8]) -> (u8, u32, &[u8])
    requires { 5 ≤ length bytes.now }
    ensures { result.0 ∷ (number_text 4 result.1 ++ result.2.now) ≡ bytes.now }
{
    let (kind, rest) = bytes.split_at(1);
    let (number, rest) = split_u32(rest);
    (kind[0], number, rest)
}

fn read_path(alloc: Global, bytes: &[u8]) -> Mem<Option<(Path, &[u8])>>
    ensures { IfOk result (λ found.
        ReadsFront IsPath path_text bytes.now (option_map (λ f. (f.0, f.1.now)) found)) }
{
    if bytes.len() < 2 {
        return Ok(None);
    }
    let (len, rest) = split_u16(bytes);
    let len = usize::from(len);
    if rest.len() < len {
        return Ok(None);
    }
    let (path, rest) = rest.split_at(len);
    let Some(path) = Path::parse(alloc, path)? else {
        return Ok(None);
    };
    Ok(Some((path, rest)))
}

// What stands at a path, by its kind and number.
fn entry_of(kind: u8, number: u32) -> Option<Entry>
    ensures { IsEntryOf kind number (option_map seen result) }
{
    match kind {
        1 if number == 0 => Some(Entry::Dir),
        2 => Some(Entry::File(Fid(number))),
        _ => None,
    }
}

fn read_entry(bytes: &[u8]) -> Option<(Entry, &[u8])>
    ensures { ReadsFront IsEntry entry_text bytes.now (option_map (λ f. (seen f.0, f.1.now)) result) }
{
    if bytes.len() < TAGGED {
        return None;
    }
    let (kind, number, rest) = split_tagged(bytes);
    let entry = entry_of(kind, number)?;
    Some((entry, rest))
}

// The kind of what stands at a path, and its number.
fn parts_of(entry: Entry) -> (u8, u32)
    ensures kind { result.0 ≡ kind_of_entry (seen entry) }
    ensures number { result.1 ≡ number_of_entry (seen entry) }
{
    match entry {
        Entry::Dir => (1, 0),
        Entry::File(fid) => (2, fid.0),
    }
}

fn push_path(alloc: Global, to: &mut ByteList, path: &Path) -> Mem<()>
    ensures { OnOk result (to.new ≡ to.old ++ path_text path.now) }
{
    let path = path.slice();
    push_u16(alloc, to, path.len() as u16)?;
    append(alloc, to, path)
}

impl Written for (Path, Entry) {
    ghost text = { λ e. name_text (shown_name e) };

    fn push(&self, alloc: Global, to: &mut ByteList) -> Mem<()> {
        let (kind, number) = parts_of(self.1);
        push_path(alloc, to, &self.0)?;
        to.push(kind)?;
        push_u32(alloc, to, number)
    }
}

impl Readable for (Path, Entry) {
    ghost Plain = { List ℕ × PlainEntry };

    ghost plain = { shown_name };

    ghost Is = { IsName };

    ghost text = { name_text };

    fn read(alloc: Global, bytes: &[u8]) -> Mem<Option<((Path, Entry), &[u8])>> {
        let Some((path, rest)) = read_path(alloc, bytes)? else {
            return Ok(None);
        };
        let Some((entry, rest)) = read_entry(rest) else {
            return Ok(None);
        };
        Ok(Some(((path, entry), rest)))
    }
}

/// Writes the names behind their count, or a part of that where memory runs out, or where the count has no room.
pub(crate) fn push_names(alloc: Global, to: &mut ByteList, names: &Names) -> Mem<()>
    ensures { OnOk result (to.new ≡ to.old ++ list_text name_text names.now.entries) }
{
    push_list(alloc, to, names.entries())
}
