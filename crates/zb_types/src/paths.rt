ghost use Rattle.std.specs.Prelude.{◌≡◌, ◌↔◌, ◌≤◌, IfOk, IfSome, IsSome, IsTrue, [], length};
ghost use Rattle.std.specs.List.{list_all};
ghost use Rattle.zb_types.specs.Paths.{is_name_byte, is_dots, is_name, are_names, is_path};

use crate::lists::{Copied, ItemList};
use crate::memory::{Mem, NoMemory};
use std::alloc::Global;
use std::marker::Model;

const MAX_NAME: usize = 64;

const MAX_PATH: usize = 1024;

/// A name, which contracts see as its bytes: 1 to 64 printable bytes with no space and no slash, other than `.` and
/// `..`.
#[derive(Drop)]
pub struct Name {
    bytes: Vec<u8>,
}

/// Names.
pub type NameList = ItemList<Name>;

/// A path, which contracts see as its bytes: one or more of a slash with a name, at most 1,024 bytes.
#[derive(Drop)]
pub struct Path {
    bytes: Vec<u8>,
}

impl Model for Name {
    ghost use Rattle.std.specs.Prelude.{List, ℕ, IsTrue};
    ghost use Rattle.zb_types.specs.Paths.{is_name};

    ghost Value = { List ℕ };

    ghost view = { λ a. a.bytes.items };

    ghost invariant = { λ a. IsTrue (is_name a.bytes.items) };
}

impl Model for Path {
    ghost use Rattle.std.specs.Prelude.{List, ℕ, IsTrue};
    ghost use Rattle.zb_types.specs.Paths.{is_path};

    ghost Value = { List ℕ };

    ghost view = { λ a. a.bytes.items };

    ghost invariant = { λ a. IsTrue (is_path a.bytes.items) };
}

fn is_name_byte(b: u8) -> bool
    ensures { result ≡ is_name_byte b }
{
    b >= 33 && b <= 126 && b != b'/'
}

fn is_dots(name: &[u8]) -> bool
    ensures { result ≡ is_dots name.now }
{
    match name {
        [first] => *first == b'.',
        [first, second] => *first == b'.' && *second == b'.',
        _ => false,
    }
}

fn all_name_bytes(name: &[u8]) -> bool
    ensures { result ≡ list_all is_name_byte name.now }
{
    name.iter().all(|b| is_name_byte(*b))
}

fn is_name(name: &[u8]) -> bool
    ensures { result ≡ is_name name.now }
{
    if is_dots(name) || name.is_empty() || name.len() > MAX_NAME {
        return false;
    }
    all_name_bytes(name)
}

// Whether names stand between the slashes, one before the first and one behind the last too.
fn are_names(text: &[u8]) -> bool
    ensures { result ≡ are_names [] text.now }
{
    let mut start = 0;
    for (i, b) in text.iter().enumerate() {
        if *b == b'/' {
            if !is_name(&text[start..i]) {
                return false;
            }
            start = i + 1;
        }
    }
    is_name(&text[start..])
}

fn is_path(text: &[u8]) -> bool
    ensures { result ≡ is_path text.now }
{
    match text {
        [b'/', names @ ..] => names.len() < MAX_PATH && are_names(names),
        _ => false,
    }
}

impl Name {
    /// The name with these bytes. None exactly where they are no name.
    pub fn parse(alloc: Global, text: &[u8]) -> Mem<Option<Name>>
        ensures same { IfOk result (λ found. IfSome found (λ name. name ≡ text.now)) }
        ensures exact { IfOk result (λ found. IsSome found ↔ IsTrue (is_name text.now)) }
    {
        if !is_name(text) {
            return Ok(None);
        }
        Ok(Some(Name {
            bytes: Vec::from_slice(alloc, text)?,
        }))
    }

    pub fn slice(&self) -> &[u8]
        ensures same { result.now ≡ self.now }
        ensures name { IsTrue (is_name self.now) }
    {
        &self.bytes
    }

    pub fn copy(&self, alloc: Global) -> Mem<Name>
        ensures { IfOk result (λ name. name ≡ self.now) }
    {
        Ok(Name {
            bytes: Vec::from_slice(alloc, &self.bytes)?,
        })
    }
}

impl Copied for Name {
    fn copy_all(alloc: Global, items: &[Name]) -> Mem<Vec<Name>> {
        let mut copies = Vec::new(alloc);
        for name in items {
            copies.push(name.copy(alloc)?)?;
        }
        Ok(copies)
    }
}

impl Path {
    /// The path with these bytes. None exactly where they are no path.
    pub fn parse(alloc: Global, text: &[u8]) -> Mem<Option<Path>>
        ensures same { IfOk result (λ found. IfSome found (λ path. path ≡ text.now)) }
        ensures exact { IfOk result (λ found. IsSome found ↔ IsTrue (is_path text.now)) }
    {
        if !is_path(text) {
            return Ok(None);
        }
        Ok(Some(Path {
            bytes: Vec::from_slice(alloc, text)?,
        }))
    }

    pub fn slice(&self) -> &[u8]
        ensures same { result.now ≡ self.now }
        ensures path { IsTrue (is_path self.now) }
    {
        &self.bytes
    }

    pub fn copy(&self, alloc: Global) -> Mem<Path>
        ensures { IfOk result (λ path. path ≡ self.now) }
    {
        Ok(Path {
            bytes: Vec::from_slice(alloc, &self.bytes)?,
        })
    }
}
