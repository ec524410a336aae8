ghost use Rattle.std.specs.Prelude.{◌≡◌, ◌++◌, ◌<◌, ◌^◌, length, IfOk, OnOk, option_map, slice_get};
ghost use Rattle.std.specs.List.{flat_map};
ghost use Rattle.std.specs.Map.{keys_of};
ghost use Rattle.zb_types.specs.Keyed.{look};
ghost use Rattle.zb_tables.specs.Finding.{among, live_in};
ghost use Rattle.zb_pointers.specs.Seen.{blocks_of, numbered_file};

use crate::head::FileHead;
use crate::in_order::Files;
use crate::pointers::Pointers;
use std::alloc::Global;
use zb_delta::Body;
use zb_types::{BlockList, Fid, LogId, Mem, NoMemory, Ptr};

// Adds the pointers of a file into a stripe.
fn push_live(
    found: &mut Vec<Body>,
    fid: Fid,
    head: FileHead,
    blocks: &[(u32, Ptr)],
    log: LogId,
    stripe: u64,
) -> Mem<()>
    ensures { OnOk result (found.new.items ≡ found.old.items ++ live_in log stripe (numbered_file fid head blocks.now)) }
{
    for &(block, now) in blocks {
        if now.log == log && now.stripe == stripe {
            found.push(Body {
                fid,
                version: head.version,
                block,
                was: None,
                now,
            })?;
        }
    }
    Ok(())
}

impl Pointers {
    /// Goes through the files with their blocks, in the order of their numbers, without memory.
    pub fn files(&self) -> Files<'_>
        ensures files { result ≡ self.now.files }
        ensures fits { length result < 2 ^ 63 }
    {
        Files::of(self.kept.iter())
    }

    /// How many files there are. It goes through all of them.
    pub fn count(&self) -> usize
        ensures { result ≡ length self.now.files }
    {
        let mut count = 0;
        let mut files = self.files();
        while files.next().is_some() {
            count += 1;
        }
        count
    }

    /// The file with this place in the order of their numbers, from 0. It goes through those before.
    pub fn at(&self, i: usize) -> Option<Fid>
        ensures { option_map (λ fid. fid.0) result ≡ slice_get (keys_of self.now.files) i }
    {
        let mut left = i;
        let mut files = self.files();
        while let Some((fid, _, _)) = files.next() {
            if left == 0 {
                return Some(fid);
            }
            left -= 1;
        }
        None
    }

    /// The pointers into a stripe, by file and block, each with its file's version. It goes through all blocks.
    pub fn live(&self, alloc: Global, log: LogId, stripe: u64) -> Mem<Vec<Body>>
        ensures { IfOk result (λ found. found.items ≡ flat_map (live_in log stripe) self.now.files) }
    {
        let mut found = Vec::new(alloc);
        let mut files = self.files();
        while let Some((fid, head, blocks)) = files.next() {
            push_live(&mut found, fid, head, blocks, log, stripe)?;
        }
        Ok(found)
    }

    /// The blocks of a file with `count` numbers from `first` on. It finds the first of them by halving, and goes on
    /// over those that it gives.
    pub fn among(&self, alloc: Global, fid: Fid, first: u32, count: u32) -> Mem<BlockList>
        ensures { IfOk result (λ list. list ≡ among first count (blocks_of (look fid.0 self.now.files))) }
    {
        match self.kept.get(&fid.0) {
            None => BlockList::new(alloc),
            Some(kept) => kept.among(alloc, first, count),
        }
    }
}
