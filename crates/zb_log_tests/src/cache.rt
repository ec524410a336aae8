use std::alloc::Global;
use std::test::Fail;
use zb_cache::BlockCache;
use zb_types::{ByteList, LogId, Mem, Ptr};

fn block_in(stripe: u64) -> Ptr {
    Ptr {
        log: LogId(1),
        stripe,
        offset: 0,
        len: 1,
    }
}

/// Puts a block of this one byte.
fn put(cache: &mut BlockCache, alloc: Global, stripe: u64, byte: u8) -> Mem<()> {
    let bytes = ByteList::of(vec![in alloc; byte; 1]?);
    cache.put(block_in(stripe), bytes)
}

/// The first byte of a block that is there.
fn get(cache: &mut BlockCache, stripe: u64) -> Option<u8> {
    match cache.get(&block_in(stripe)) {
        Some(bytes) => bytes.get(0).copied(),
        None => None,
    }
}

fn sent<T: Send>(value: T) -> T {
    value
}

#[test]
fn the_blocks_that_were_used_last_stay(rt: HostRuntime) -> Result<(), Fail> {
    let alloc = rt.alloc();
    let mut cache = sent(BlockCache::new(alloc, 3)?);
    for stripe in 0..5 {
        put(&mut cache, alloc, stripe, 7)?;
        assert_eq!(rt; get(&mut cache, 0), Some(7));
    }
    put(&mut cache, alloc, 3, 8)?;
    for (stripe, byte) in [
        (0, Some(7)),
        (1, None),
        (2, None),
        (3, Some(8)),
        (4, Some(7)),
    ] {
        assert_eq!(rt; get(&mut cache, stripe), byte);
    }
    Ok(())
}
