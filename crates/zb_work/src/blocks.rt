ghost use Rattle.std.specs.Prelude.{◌≡◌, ◌<◌, ◌≤◌, IfOk, OnOk, OnErr, length, drop, fold, Option, []};
ghost use Rattle.std.specs.Option.{option_copied};
ghost use Rattle.zb_cache.specs.Entries.{bytes_under, after_use};
ghost use Rattle.zb_work.specs.Blocks.{or_none, slot_of, slots_of, is_missing, next_missing, shifted, filled, asked_for, put_in};

use std::alloc::Global;
use zb_basis::{Fetched, FetchedList};
use zb_cache::BlockCache;
use zb_types::{ByteList, Mem, Ptr};

/// No bytes, which takes no memory.
pub fn no_bytes(alloc: Global) -> ByteList
    ensures { result ≡ [] }
{
    ByteList::of(Vec::new(alloc))
}

/// The bytes, where they are as many as the pointer says, else none.
fn or_none(alloc: Global, ptr: &Ptr, bytes: Option<&ByteList>) -> Mem<ByteList>
    ensures { IfOk result (λ made. made ≡ or_none ptr.now (option_copied bytes.entry)) }
{
    match bytes {
        Some(bytes) if bytes.len() == ptr.len as usize => bytes.copy(alloc),
        _ => Ok(no_bytes(alloc)),
    }
}

/// The blocks that are wanted as they are in a cache: without bytes where it doesn't have them, or has others than a
/// pointer says.
pub fn slots_of(alloc: Global, cache: &BlockCache, wanted: &[Ptr]) -> Mem<FetchedList>
    ensures { IfOk result (λ blocks. blocks ≡ slots_of cache.now wanted.now) }
{
    let mut blocks = Vec::new(alloc);
    for ptr in wanted {
        let bytes = or_none(alloc, ptr, cache.peek(ptr))?;
        blocks.push(Fetched { ptr: *ptr, bytes })?;
    }
    Ok(FetchedList::of(blocks))
}

/// The place of the first block that is missing, and its pointer, where none is missing before place `from`.
pub fn next_missing(blocks: &[Fetched], from: usize) -> Option<(usize, Ptr)>
    requires within { from ≤ length blocks.now }
    requires there { next_missing blocks.now ≡ shifted from (next_missing (drop from blocks.now)) }
    ensures { result ≡ next_missing blocks.now }
{
    for at in from..blocks.len() {
        if blocks[at].bytes.len() == 0 {
            return Some((at, blocks[at].ptr));
        }
    }
    None
}

/// The bytes of the block at this place have come.
pub fn fill(blocks: FetchedList, at: usize, ptr: Ptr, bytes: ByteList) -> FetchedList
    requires { at < length blocks }
    ensures { result ≡ filled blocks at ptr bytes }
{
    let mut items = blocks.into_items();
    items[at] = Fetched { ptr, bytes };
    FetchedList::of(items)
}

/// Asks the cache for a block, which is then the last used.
fn ask_for(cache: &mut BlockCache, ptr: &Ptr)
    ensures entries { cache.new.entries ≡ after_use ptr.now cache.old.entries }
    ensures room { cache.new.room ≡ cache.old.room }
{
    let _ = cache.get(ptr);
}

/// Asks the cache for blocks, in order.
pub fn ask_for_each(cache: &mut BlockCache, wanted: &[Ptr])
    ensures { cache.new ≡ asked_for wanted.now cache.old }
{
    for ptr in wanted {
        ask_for(cache, ptr);
    }
}

/// Puts a block into the cache. After want of memory the cache is as before.
pub fn put(cache: &mut BlockCache, ptr: Ptr, bytes: ByteList) -> Mem<()>
    ensures ok { OnOk result (cache.new ≡ put_in cache.old ptr bytes) }
    ensures err { OnErr result (cache.new ≡ cache.old) }
{
    cache.put(ptr, bytes)
}
