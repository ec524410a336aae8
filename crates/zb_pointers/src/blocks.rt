ghost use Rattle.std.specs.Prelude.{◌≡◌, ◌+◌, ◌≤◌, [], None, length, IfOk, IfErr, OnOk, OnErr, IsSome, slice_get};
ghost use Rattle.zb_types.specs.Keyed.{look, put};
ghost use Rattle.zb_tables.specs.Finding.{among};
ghost use Rattle.zb_tables.specs.Fold.{below};
ghost use Rattle.zb_pointers.specs.Blocks.{IsAt, IsFirstFrom, IsGap};

use std::alloc::Global;
use std::marker::Model;
use zb_types::{BlockList, Mem, NoMemory, Ptr};

/// Where the blocks of a file stand, by their numbers, with room for more. They lie in order in one piece of memory,
/// since no map of the library can make room before it is needed. A block is found by halving; a new one behind all
/// others moves none, and one before others moves these.
#[derive(Drop)]
pub(crate) struct BlockMap {
    pub(crate) pairs: Vec<(u32, Ptr)>,
}

impl Model for BlockMap {
    ghost use Rattle.zb_pointers.specs.Blocks.{SeenBlocks, IsRising, room_of};

    ghost Value = { SeenBlocks };

    ghost view = { λ a. record { pairs = a.pairs.items; room = room_of a.pairs } };

    ghost invariant = { λ a. IsRising a.pairs.items };
}

impl BlockMap {
    pub(crate) fn new(alloc: Global) -> BlockMap
        ensures { result.pairs ≡ [] }
    {
        BlockMap {
            pairs: Vec::new(alloc),
        }
    }

    /// The blocks in the order of their numbers.
    pub(crate) fn slice(&self) -> &[(u32, Ptr)]
        ensures { result.now ≡ self.now.pairs }
    {
        self.pairs.as_slice()
    }

    // Where a number is, or where it would go.
    fn search(&self, number: u32) -> Result<usize, usize>
        ensures found { IfOk result (IsAt self.now.pairs number) }
        ensures absent { IfErr result (IsGap self.now.pairs number) }
    {
        self.pairs.binary_search_by_key(&number, |&(k, _)| k)
    }

    pub(crate) fn get(&self, number: u32) -> Option<Ptr>
        ensures { result ≡ look number self.now.pairs }
    {
        match self.search(number) {
            Ok(i) => Some(self.pairs[i].1),
            Err(_) => None,
        }
    }

    pub(crate) fn put(&mut self, number: u32, ptr: Ptr) -> Mem<()>
        ensures ok { OnOk result (self.new.pairs ≡ put number ptr self.old.pairs) }
        ensures err { OnErr result (self.new.pairs ≡ self.old.pairs) }
        ensures absent { OnErr result (look number self.old.pairs ≡ None) }
        ensures full { OnErr result (self.old.room ≡ 0) }
        ensures room { self.old.room ≤ self.new.room + 1 }
        ensures present { IsSome (look number self.old.pairs) → self.old.room ≤ self.new.room }
    {
        match self.search(number) {
            Ok(i) => {
                self.pairs[i] = (number, ptr);
                Ok(())
            }
            Err(i) => {
                self.pairs.insert(i, (number, ptr))?;
                Ok(())
            }
        }
    }

    // How many blocks have numbers below this.
    fn place(&self, number: u32) -> usize
        ensures { IsFirstFrom self.now.pairs number result }
    {
        let _ = &self.pairs;
        match self.search(number) {
            Ok(i) => i,
            Err(i) => i,
        }
    }

    /// Drops the blocks whose numbers aren't below this.
    pub(crate) fn keep_below(&mut self, number: u32)
        ensures kept { self.new.pairs ≡ below number self.old.pairs }
        ensures room { self.old.room ≤ self.new.room }
    {
        let first = self.place(number);
        self.pairs.truncate(first);
    }

    /// Makes room for so many more blocks.
    pub(crate) fn reserve(&mut self, blocks: u32) -> Mem<()>
        ensures same { self.new.pairs ≡ self.old.pairs }
        ensures ok { OnOk result (blocks ≤ self.new.room) }
        ensures room { self.old.room ≤ self.new.room }
    {
        self.pairs.reserve(blocks as usize)?;
        Ok(())
    }

    /// The blocks with `count` numbers from `first` on.
    pub(crate) fn among(&self, alloc: Global, first: u32, count: u32) -> Mem<BlockList>
        ensures { IfOk result (λ list. list ≡ among first count self.now.pairs) }
    {
        let end = u64::from(first) + u64::from(count);
        let mut list = BlockList::new(alloc)?;
        let (_, rest) = self.pairs.split_at(self.place(first));
        for &(number, ptr) in rest {
            if end <= u64::from(number) {
                break;
            }
            list.push((number, ptr))?;
        }
        Ok(list)
    }
}
