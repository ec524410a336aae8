ghost use Rattle.std.specs.Prelude.{◌≡◌, ◌+◌, ◌≤◌, ◌<◌, ℕ, [], length, IfOk, IsOk, IsSome, IsTrue, OnOk, OnErr, slice_get};
ghost use Rattle.zb_types.specs.Keyed.{look, put, without};
ghost use Rattle.zb_tables.specs.Fold.{cut, new_file, raised};
ghost use Rattle.zb_pointers.specs.Seen.{HasRoom, KeepsRoom, SameRooms, TakesRoom, file_of, blocks_of, changed_at, seen_head, set_block};

use crate::blocks::BlockMap;
use crate::head::FileHead;
use crate::kept::Kept;
use std::alloc::Global;
use std::collections::BTreeMap;
use std::marker::Model;
use zb_types::{Fid, Geometry, Mem, NoMemory, Ptr};

/// Files by their numbers, with their blocks. Contracts see the files of the tables, and for how many new blocks each
/// has room. A file is found in an ordered map and a block of it by halving, so in steps that grow as the logarithms of
/// how many there are. A new block behind all others of its file moves none, one before others moves these in memory;
/// a cut takes steps for what it drops alone.
#[derive(Drop)]
pub struct Pointers {
    block: u32,
    pub(crate) kept: BTreeMap<u32, Kept>,
}

impl Model for Pointers {
    ghost use Rattle.zb_pointers.specs.Seen.{AreOrdered, SeenPointers, files_in, rooms_in};
    ghost use Rattle.std.specs.Prelude.{◌≤◌};

    ghost Value = { SeenPointers };

    ghost view = { λ a. record {
      block = a.block;
      files = files_in a.kept.entries;
      rooms = rooms_in a.kept.entries;
    } };

    ghost invariant = { λ a. (1 ≤ a.block) × AreOrdered a.kept };
}

impl Pointers {
    /// No files.
    pub fn new(alloc: Global, geo: &Geometry) -> Mem<Pointers>
        ensures files { IfOk result (λ pointers. pointers.files ≡ []) }
        ensures block { IfOk result (λ pointers. pointers.block ≡ geo.now.block) }
    {
        Ok(Pointers {
            block: geo.block,
            kept: BTreeMap::new(alloc),
        })
    }

    /// A file's version and length. None where there is no such file.
    pub fn find(&self, fid: Fid) -> Option<FileHead>
        ensures { result ≡ seen_head (look fid.0 self.now.files) }
    {
        match self.kept.get(&fid.0) {
            None => None,
            Some(kept) => kept.head,
        }
    }

    /// Where a block stands. None for a hole, and where there is no such file.
    pub fn block(&self, fid: Fid, block: u32) -> Option<Ptr>
        ensures { result ≡ look block (blocks_of (look fid.0 self.now.files)) }
    {
        match self.kept.get(&fid.0) {
            None => None,
            Some(kept) => kept.get(block),
        }
    }

    /// Lets a block of a file stand at a place. Takes no memory where the file has room, nor where the block stood
    /// somewhere. Where there is no such file, nothing changes.
    pub fn set(&mut self, _alloc: Global, fid: Fid, block: u32, ptr: Ptr) -> Mem<()>
        ensures ok { OnOk result (self.new.files ≡ changed_at fid.0 (set_block block ptr) self.old.files) }
        ensures err { OnErr result (self.new.files ≡ self.old.files) }
        ensures succeeds { HasRoom self.old fid.0 1 → IsOk result }
        ensures room { TakesRoom fid.0 self.old self.new }
        ensures present { IsSome (look block (blocks_of (look fid.0 self.old.files))) → IsOk result }
        ensures same_room { IsSome (look block (blocks_of (look fid.0 self.old.files))) → KeepsRoom fid.0 self.old self.new }
        ensures others { SameRooms fid.0 self.old self.new }
        ensures block { self.new.block ≡ self.old.block }
    {
        let Some(kept) = self.kept.get_mut(&fid.0) else {
            return Ok(());
        };
        kept.set(block, ptr)
    }

    /// Gives a file a length and its next version, and drops the blocks that begin at or behind that length. Where there
    /// is no such file, nothing changes.
    pub fn cut(&mut self, fid: Fid, length: u32)
        ensures files { self.new.files ≡ changed_at fid.0 (cut self.old.block length) self.old.files }
        ensures room { KeepsRoom fid.0 self.old self.new }
        ensures others { SameRooms fid.0 self.old self.new }
        ensures block { self.new.block ≡ self.old.block }
    {
        let block = self.block;
        let Some(kept) = self.kept.get_mut(&fid.0) else {
            return;
        };
        kept.cut(block, length);
    }

    /// Gives a file its next version, and this length where it is shorter. Where there is no such file, nothing changes.
    pub fn raise(&mut self, fid: Fid, length: u32)
        ensures files { self.new.files ≡ changed_at fid.0 (raised length) self.old.files }
        ensures room { KeepsRoom fid.0 self.old self.new }
        ensures others { SameRooms fid.0 self.old self.new }
        ensures block { self.new.block ≡ self.old.block }
    {
        let Some(kept) = self.kept.get_mut(&fid.0) else {
            return;
        };
        kept.raise(length);
    }

    /// Adds an empty file of version 1, in place of one with this number. Takes no memory where there is room for it.
    pub fn add(&mut self, alloc: Global, fid: Fid) -> Mem<()>
        ensures ok { OnOk result (self.new.files ≡ put fid.0 new_file self.old.files) }
        ensures err { OnErr result (self.new.files ≡ self.old.files) }
        ensures succeeds { HasRoom self.old fid.0 0 → IsOk result }
        ensures room { KeepsRoom fid.0 self.old self.new }
        ensures others { SameRooms fid.0 self.old self.new }
        ensures block { self.new.block ≡ self.old.block }
    {
        self.load(
            alloc,
            fid,
            FileHead {
                version: 1,
                length: 0,
            },
        )
    }

    /// Adds a file of this version and length without blocks, in place of one with this number. Takes no memory where
    /// there is room for it.
    pub fn load(&mut self, alloc: Global, fid: Fid, head: FileHead) -> Mem<()>
        ensures ok { OnOk result (self.new.files ≡ put fid.0 (file_of head []) self.old.files) }
        ensures err { OnErr result (self.new.files ≡ self.old.files) }
        ensures succeeds { HasRoom self.old fid.0 0 → IsOk result }
        ensures room { KeepsRoom fid.0 self.old self.new }
        ensures others { SameRooms fid.0 self.old self.new }
        ensures block { self.new.block ≡ self.old.block }
    {
        self.make_room(alloc, fid)?;
        let Some(kept) = self.kept.get_mut(&fid.0) else {
            return Ok(());
        };
        kept.start(head);
        Ok(())
    }

    // Makes room for a file where nothing is kept under its number.
    fn make_room(&mut self, alloc: Global, fid: Fid) -> Mem<()>
        ensures files { self.new.files ≡ self.old.files }
        ensures ok { OnOk result (HasRoom self.new fid.0 0) }
        ensures succeeds { HasRoom self.old fid.0 0 → IsOk result }
        ensures room { KeepsRoom fid.0 self.old self.new }
        ensures others { SameRooms fid.0 self.old self.new }
        ensures block { self.new.block ≡ self.old.block }
    {
        if self.kept.contains_key(&fid.0) {
            return Ok(());
        }
        let kept = Kept {
            head: None,
            blocks: BlockMap::new(alloc),
        };
        self.kept.insert(fid.0, kept)?;
        Ok(())
    }

    /// Makes room for so many new blocks of a file, and for adding it where it isn't there. The room of a file that is
    /// never added stays until it is dropped.
    pub fn reserve(&mut self, alloc: Global, fid: Fid, blocks: u32) -> Mem<()>
        ensures files { self.new.files ≡ self.old.files }
        ensures ok { OnOk result (HasRoom self.new fid.0 blocks) }
        ensures room { KeepsRoom fid.0 self.old self.new }
        ensures others { SameRooms fid.0 self.old self.new }
        ensures block { self.new.block ≡ self.old.block }
    {
        self.make_room(alloc, fid)?;
        let Some(kept) = self.kept.get_mut(&fid.0) else {
            return Ok(());
        };
        kept.reserve(blocks)
    }

    /// Drops a file with its blocks and its room, if it is there.
    pub fn drop_file(&mut self, fid: Fid)
        ensures files { self.new.files ≡ without fid.0 self.old.files }
        ensures others { SameRooms fid.0 self.old self.new }
        ensures block { self.new.block ≡ self.old.block }
    {
        self.kept.remove(&fid.0);
    }

    /// How many blocks of a file stand somewhere.
    pub fn blocks(&self, fid: Fid) -> usize
        ensures { result ≡ length (blocks_of (look fid.0 self.now.files)) }
    {
        match self.kept.get(&fid.0) {
            None => 0,
            Some(kept) => kept.slice().len(),
        }
    }

    /// The block of a file with this place in the order of their numbers, from 0. It takes no steps over those before.
    pub fn block_at(&self, fid: Fid, i: usize) -> Option<(u32, Ptr)>
        ensures { result ≡ slice_get (blocks_of (look fid.0 self.now.files)) i }
    {
        match self.kept.get(&fid.0) {
            None => None,
            Some(kept) => kept.at(i),
        }
    }
}
