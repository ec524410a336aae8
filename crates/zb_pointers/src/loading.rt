ghost use Rattle.std.specs.Prelude.{◌≡◌, IfOk, OnOk, OnErr};
ghost use Rattle.std.specs.List.Sorted.{IsStrictlySortedBy};
ghost use Rattle.std.specs.Map.{keys_of};
ghost use Rattle.std.specs.Ordering.{nat_cmp};
ghost use Rattle.zb_types.specs.Keyed.{put};
ghost use Rattle.zb_pointers.specs.Blocks.{IsRising};
ghost use Rattle.zb_pointers.specs.Seen.{file_of};

use crate::blocks::BlockMap;
use crate::head::FileHead;
use crate::kept::Kept;
use crate::pointers::Pointers;
use std::alloc::Global;
use zb_types::{Fid, Mem, NoMemory, Ptr};

impl BlockMap {
    // The blocks with these numbers, which rise.
    fn of(alloc: Global, blocks: &[(u32, Ptr)]) -> Mem<BlockMap>
        requires { IsRising blocks.now }
        ensures { IfOk result (λ made. made.pairs ≡ blocks.now) }
    {
        Ok(BlockMap {
            pairs: Vec::from_slice(alloc, blocks)?,
        })
    }
}

impl Pointers {
    /// Adds a file of this version and length with these blocks, whose numbers have to rise, in place of one with this
    /// number.
    pub fn load_blocks(
        &mut self,
        alloc: Global,
        fid: Fid,
        head: FileHead,
        blocks: &[(u32, Ptr)],
    ) -> Mem<()>
        requires { IsStrictlySortedBy nat_cmp (keys_of blocks.now) }
        ensures ok { OnOk result (self.new.files ≡ put fid.0 (file_of head blocks.now) self.old.files) }
        ensures err { OnErr result (self.new.files ≡ self.old.files) }
        ensures block { self.new.block ≡ self.old.block }
    {
        let kept = Kept {
            head: Some(head),
            blocks: BlockMap::of(alloc, blocks)?,
        };
        self.kept.insert(fid.0, kept)?;
        Ok(())
    }
}
