ghost use Rattle.std.specs.Prelude.{◌≡◌, ◌≤◌, [], IsOk, IsSome, IfOk, OnErr, OnOk};
ghost use Rattle.std.specs.Option.{option_copied};
ghost use Rattle.std.specs.Borrow.{sem};
ghost use Rattle.zb_cache.specs.Entries.{after_put, after_use, bytes_under};
ghost use Rattle.zb_cache.specs.Lends.{EndsAs};

use lru::LruCache;
use std::alloc::Global;
use std::marker::Model;
use std::num::NonZeroUsize;
use zb_types::{ByteList, Mem, NoMemory, Ptr};

/// Blocks under their pointers. Contracts see them as a list, the last used first, and how many there may be.
#[derive(Drop)]
pub struct BlockCache {
    held: LruCache<Ptr, ByteList>,
}

impl Model for BlockCache {
    ghost use Rattle.zb_cache.specs.Entries.{SeenCache};

    ghost Value = { SeenCache };

    ghost view = { λ c. record { entries = c.held.entries; room = c.held.cap } };
}

impl BlockCache {
    /// A cache for so many blocks, at least one.
    pub fn new(alloc: Global, blocks: usize) -> Mem<BlockCache>
        requires { 1 ≤ blocks }
        ensures entries { IfOk result (λ cache. cache.entries ≡ []) }
        ensures room { IfOk result (λ cache. cache.room ≡ blocks) }
    {
        let Some(blocks) = NonZeroUsize::new(blocks) else {
            unreachable!()
        };
        Ok(BlockCache {
            held: LruCache::new(alloc, blocks)?,
        })
    }

    /// The bytes under a pointer, which is then the last used. None exactly where the cache has none.
    pub fn get(&mut self, ptr: &Ptr) -> Option<&ByteList>
        ensures* used { sem 𝓛 (EndsAs self.entry (after_use ptr.now self.old.entries) self.old.room) }
        ensures value { option_copied result ≡ bytes_under ptr.now self.old.entries }
    {
        self.held.get(ptr)
    }

    /// The bytes under a pointer, which isn't used by that. None exactly where the cache has none.
    pub fn peek(&self, ptr: &Ptr) -> Option<&ByteList>
        ensures { option_copied result ≡ bytes_under ptr.now self.now.entries }
    {
        self.held.peek(ptr)
    }

    /// Puts these bytes under a pointer, which is then the last used. Where it is a new one in a full cache, the block
    /// that was used the longest time ago goes. Takes no memory where the pointer has bytes already.
    /// After want of memory the cache is as before, and the bytes are gone.
    pub fn put(&mut self, ptr: Ptr, bytes: ByteList) -> Mem<()>
        ensures ok { OnOk result (self.new.entries ≡ after_put self.old.room ptr bytes self.old.entries) }
        ensures err { OnErr result (self.new.entries ≡ self.old.entries) }
        ensures room { self.new.room ≡ self.old.room }
        ensures known { IsSome (bytes_under ptr self.old.entries) → IsOk result }
    {
        self.held.put(ptr, bytes)?;
        Ok(())
    }
}
