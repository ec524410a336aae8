ghost use Rattle.std.specs.Prelude.{◌≡◌, ◌≤◌, ◌++◌, ℕ, List, drop, length, IfSome, OnOk, OnErr, Some};
ghost use Rattle.std.specs.Option.{option_map};
ghost use Rattle.zb_numbers.specs.Fronts.{ReadsFront};
ghost use Rattle.zb_delta.specs.Spelling.{IsDelta, IsRead, as_read, spelling_of_delta, delta_length};

use crate::reading::read_delta;
use crate::writing::push_delta;
use std::alloc::Global;
use zb_numbers::append;
use zb_types::{ByteList, Copied, Fid, ItemList, Mem, NoMemory, Ptr};

/// How many bytes a delta takes.
pub(crate) const LENGTH: usize = 58;

/// A block of a file: the file's version, where the block stood before, if it did, and where it stands now.
#[derive(Clone, Copy, Debug, PartialEq, Eq)]
pub struct Body {
    pub fid: Fid,
    pub version: u64,
    pub block: u32,
    pub was: Option<Ptr>,
    pub now: Ptr,
}

/// A change of a block's pointer: by a client, by the cleaner, or one that the file manager found in vain, with the
/// pointer that its tables had.
#[derive(Clone, Copy, Debug, PartialEq, Eq)]
pub enum Delta {
    Update(Body),
    Clean(Body),
    Reject { body: Body, table: Option<Ptr> },
}

/// Deltas.
pub type DeltaList = ItemList<Delta>;

impl Copied for Delta {
    fn copy_all(alloc: Global, items: &[Delta]) -> Mem<Vec<Delta>> {
        Ok(Vec::from_slice(alloc, items)?)
    }
}

impl Delta {
    /// Writes its 58 bytes at the end. A reject is written with the table's pointer in place of its old one.
    pub fn write(&self, alloc: Global, to: &mut ByteList) -> Mem<()>
        ensures ok { OnOk result (to.new ≡ to.old ++ spelling_of_delta self.now) }
        ensures err { OnErr result (to.new ≡ to.old) }

        // What was written is read back.
        ensures room { OnOk result (IsDelta self.now) }
    {
        let mut text = ByteList::of(Vec::with_capacity(alloc, LENGTH)?);
        push_delta(alloc, &mut text, self)?;
        append(alloc, to, text.slice())
    }

    /// The delta at the front of these bytes, and how many bytes it takes. None exactly where no front of them is a
    /// delta. A reject is read without an old pointer.
    pub fn read(bytes: &[u8]) -> Option<(Delta, usize)>
        ensures found { ReadsFront IsRead spelling_of_delta bytes.now (option_map (λ found. (found.0, drop found.1 bytes.now)) result) }
        ensures length { IfSome result (λ found. found.1 ≡ delta_length) }
        ensures within { IfSome result (λ found. found.1 ≤ length bytes.now) }

        // What is spelled is read, whatever follows.
        ensures again { (delta : Delta) (rest : List ℕ) → IsDelta delta → spelling_of_delta delta ++ rest ≡ bytes.now
            → result ≡ Some (as_read delta, delta_length) }
    {
        let (delta, _) = read_delta(bytes)?;
        Some((delta, LENGTH))
    }
}
