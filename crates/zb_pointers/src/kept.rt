ghost use Rattle.std.specs.Prelude.{◌≡◌, ◌+◌, ◌≤◌, length, [], None, Some, IfOk, IsSome, OnOk, OnErr, option_map, slice_get};
ghost use Rattle.zb_types.specs.Keyed.{look};
ghost use Rattle.zb_tables.specs.Tables.{risen as risen_version};
ghost use Rattle.zb_tables.specs.Finding.{among};
ghost use Rattle.zb_tables.specs.Fold.{blocks_in as count_blocks, cut, raised};
ghost use Rattle.zb_pointers.specs.Seen.{file_of, blocks_of, file_in, set_block};

use crate::blocks::BlockMap;
use crate::head::FileHead;
use std::alloc::Global;
use zb_types::{BlockList, Mem, Ptr};

/// The last value of a version.
const LAST_VERSION: u64 = 281_474_976_710_656;

/// What is kept under a number: a file with its blocks, or room for one that isn't there.
#[derive(Drop)]
pub(crate) struct Kept {
    pub(crate) head: Option<FileHead>,
    pub(crate) blocks: BlockMap,
}

// The next version; the last stands still.
fn risen(version: u64) -> u64
    ensures { result ≡ risen_version version }
{
    if version < LAST_VERSION {
        version + 1
    } else {
        version
    }
}

// How many blocks of this size a length reaches into.
fn blocks_in(block: u32, length: u32) -> u32
    requires { 1 ≤ block }
    ensures { result ≡ count_blocks block length }
{
    let reach = u64::from(length) + u64::from(block - 1);
    (reach / u64::from(block)) as u32
}

impl Kept {
    pub(crate) fn set(&mut self, number: u32, ptr: Ptr) -> Mem<()>
        ensures ok { OnOk result (file_in self.new ≡ option_map (set_block number ptr) (file_in self.old)) }
        ensures err { OnErr result (file_in self.new ≡ file_in self.old) }
        ensures full { OnErr result (self.old.blocks.room ≡ 0) }
        ensures room { self.old.blocks.room ≤ self.new.blocks.room + 1 }
        ensures absent { OnErr result (look number self.old.blocks.pairs ≡ None) }
        ensures present { IsSome (look number self.old.blocks.pairs) → self.old.blocks.room ≤ self.new.blocks.room }
    {
        self.blocks.put(number, ptr)
    }

    pub(crate) fn cut(&mut self, block: u32, length: u32)
        requires { 1 ≤ block }
        ensures file { file_in self.new ≡ option_map (cut block length) (file_in self.old) }
        ensures room { self.old.blocks.room ≤ self.new.blocks.room }
    {
        if let Some(head) = &mut self.head {
            head.version = risen(head.version);
            head.length = length;
            self.blocks.keep_below(blocks_in(block, length));
        }
    }

    pub(crate) fn raise(&mut self, length: u32)
        ensures file { file_in self.new ≡ option_map (raised length) (file_in self.old) }
        ensures room { self.new.blocks.room ≡ self.old.blocks.room }
    {
        if let Some(head) = &mut self.head {
            head.version = risen(head.version);
            head.length = head.length.max(length);
        }
    }

    // Where a block of the file stands, if there is a file.
    pub(crate) fn get(&self, number: u32) -> Option<Ptr>
        ensures { result ≡ look number (blocks_of (file_in self.now)) }
    {
        match self.head {
            None => None,
            Some(_) => self.blocks.get(number),
        }
    }

    // The blocks of the file, if there is a file.
    pub(crate) fn slice(&self) -> &[(u32, Ptr)]
        ensures { result.now ≡ blocks_of (file_in self.now) }
    {
        match self.head {
            None => &[],
            Some(_) => self.blocks.slice(),
        }
    }

    // The block of the file with this place in the order of their numbers, if there is a file.
    pub(crate) fn at(&self, i: usize) -> Option<(u32, Ptr)>
        ensures { result ≡ slice_get (blocks_of (file_in self.now)) i }
    {
        self.slice().get(i).copied()
    }

    // The file begins anew, without blocks.
    pub(crate) fn start(&mut self, head: FileHead)
        ensures file { file_in self.new ≡ Some (file_of head []) }
        ensures room { self.old.blocks.room ≤ self.new.blocks.room }
    {
        self.blocks.keep_below(0);
        self.head = Some(head);
    }

    pub(crate) fn reserve(&mut self, blocks: u32) -> Mem<()>
        ensures file { file_in self.new ≡ file_in self.old }
        ensures ok { OnOk result (blocks ≤ self.new.blocks.room) }
        ensures room { self.old.blocks.room ≤ self.new.blocks.room }
    {
        self.blocks.reserve(blocks)
    }

    // The blocks of the file with `count` numbers from `first` on.
    pub(crate) fn among(&self, alloc: Global, first: u32, count: u32) -> Mem<BlockList>
        ensures { IfOk result (λ list. list ≡ among first count (blocks_of (file_in self.now))) }
    {
        match self.head {
            None => BlockList::new(alloc),
            Some(_) => self.blocks.among(alloc, first, count),
        }
    }
}
