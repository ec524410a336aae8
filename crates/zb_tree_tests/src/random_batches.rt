ghost use Rattle.std.specs.Prelude.{◌≤◌, ◌<◌};

use crate::manager::{commit, new_manager, path};
use std::alloc::Global;
use std::collections::BTreeMap;
use std::ops::Range;
use std::test::Fail;
use zb_batch::{Batch, Op, OpList};
use zb_delta::{Body, Delta, DeltaList};
use zb_history::Tree;
use zb_manager::{Manager, ReplyList};
use zb_names::Entry;
use zb_types::{
    ByteList, Call, Fid, Found, LogId, Mem, Path, Piece, Ptr, Reply, bytes_from, bytes_resized,
    bytes_written,
};

const BLOCK: u32 = 64;

/// The paths that the calls name.
const PATHS: [&[u8]; 4] = [b"/a", b"/b", b"/c", b"/c/d"];

/// How many files the calls name.
const FILES: u32 = 6;

/// Numbers without a pattern.
#[derive(Drop)]
struct Dice {
    state: u64,
}

impl Dice {
    /// A number below this one.
    fn roll(&mut self, below: u32) -> u32
        requires { 1 ≤ below }
        ensures { result < below }
    {
        let mut x = self.state;
        x ^= x << 13;
        x ^= x >> 7;
        x ^= x << 17;
        self.state = x;
        (x % u64::from(below)) as u32
    }
}

/// A file manager beside the plain tree, and the bytes of each stripe.
#[derive(Drop)]
struct Bench {
    manager: Manager,
    tree: Tree,
    stripes: BTreeMap<u64, ByteList>,
    dice: Dice,
}

/// A batch that is made: its operations, the bytes of its stripe, and the plain tree's replies.
#[derive(Drop)]
struct Making {
    number: u64,
    ops: OpList,
    bytes: ByteList,
    replies: ReplyList,
}

fn new_bench(alloc: Global) -> Mem<Bench> {
    Ok(Bench {
        manager: new_manager(alloc)?,
        tree: Tree::new(alloc)?,
        stripes: BTreeMap::new(alloc),
        dice: Dice {
            state: 88_172_645_463_325_252,
        },
    })
}

fn new_making(alloc: Global, number: u64) -> Mem<Making> {
    Ok(Making {
        number,
        ops: OpList::new(alloc)?,
        bytes: ByteList::new(alloc)?,
        replies: ReplyList::new(alloc)?,
    })
}

fn any_path(alloc: Global, dice: &mut Dice) -> Mem<Path> {
    path(alloc, PATHS[dice.roll(4) as usize])
}

fn any_name_call(alloc: Global, dice: &mut Dice) -> Mem<Call> {
    let path = any_path(alloc, dice)?;
    match dice.roll(6) {
        0 => Ok(Call::Mkdir(path)),
        1 => Ok(Call::Remove(path)),
        2 => Ok(Call::Rename(path, any_path(alloc, dice)?)),
        _ => Ok(Call::Create(path)),
    }
}

fn any_bytes(alloc: Global, dice: &mut Dice) -> Mem<ByteList> {
    let value = dice.roll(256) as u8;
    let count = 1 + dice.roll(100) as usize;
    Ok(ByteList::of(vec![in alloc; value; count]?))
}

fn any_file_call(alloc: Global, dice: &mut Dice) -> Mem<Call> {
    let fid = Fid(1 + dice.roll(FILES));
    let place = dice.roll(300);
    if dice.roll(4) == 0 {
        return Ok(Call::Truncate { fid, length: place });
    }
    Ok(Call::Write {
        fid,
        offset: place,
        bytes: any_bytes(alloc, dice)?,
    })
}

/// Where the tables have a block.
fn block_in(found: &Found, block: u32) -> Option<Ptr> {
    for (number, ptr) in found.blocks.slice() {
        if *number == block {
            return Some(*ptr);
        }
    }
    None
}

/// Where an operation puts a block.
fn block_of(op: &Op, fid: Fid, block: u32) -> Option<Ptr> {
    for delta in op.deltas() {
        if let Delta::Update(body) = delta {
            if body.fid == fid && body.block == block {
                return Some(body.now);
            }
        }
    }
    None
}

fn is_of(op: &Op, file: Fid) -> bool {
    match op {
        Op::Write { fid, .. } | Op::Cut { fid, .. } => *fid == file,
        _ => false,
    }
}

impl Making {
    /// Where a block stands before the next operation.
    fn was(&self, found: &Found, fid: Fid, block: u32) -> Option<Ptr> {
        let mut was = block_in(found, block);
        for op in self.ops.slice() {
            was = block_of(op, fid, block).or(was);
        }
        was
    }

    /// The version of a file before the next operation, 0 where there is no such file.
    fn version(&self, found: &Found, fid: Fid) -> u64 {
        let mut version = found.version;
        for op in self.ops.slice() {
            if is_of(op, fid) && version > 0 {
                version = version.wrapping_add(1);
            }
        }
        version
    }

    /// Puts the bytes of a block into the stripe.
    fn put(&mut self, data: &[u8]) -> Mem<Ptr> {
        let offset = length(self.bytes.slice());
        for byte in data {
            self.bytes.push(*byte)?;
        }
        Ok(Ptr {
            log: LogId(1),
            stripe: self.number,
            offset,
            len: length(data),
        })
    }
}

/// How many bytes there are, of which there are few.
fn length(bytes: &[u8]) -> u32 {
    u32::try_from(bytes.len()).unwrap_or(0)
}

fn read(alloc: Global, tree: &Tree, fid: Fid, offset: u32, len: u32) -> Mem<ByteList> {
    match tree.answer(alloc, &Call::Read { fid, offset, len })? {
        Reply::Bytes(bytes) => Ok(bytes),
        _ => ByteList::new(alloc),
    }
}

/// The change of a block to what the plain tree has now.
fn delta(
    alloc: Global,
    bench: &Bench,
    making: &mut Making,
    found: &Found,
    fid: Fid,
    block: u32,
) -> Mem<Delta> {
    let data = read(alloc, &bench.tree, fid, block.saturating_mul(BLOCK), BLOCK)?;
    let was = making.was(found, fid, block);
    let version = making.version(found, fid);
    Ok(Delta::Update(Body {
        fid,
        version,
        block,
        was,
        now: making.put(data.slice())?,
    }))
}

/// The blocks that a change reaches: those of a write, and the cut one of a truncation if it was there.
fn reach(making: &Making, found: &Found, call: &Call) -> Range<u32> {
    match call {
        Call::Write { offset, bytes, .. } => {
            let last = offset
                .saturating_add(length(bytes.slice()))
                .saturating_sub(1);
            *offset / BLOCK..last / BLOCK + 1
        }
        Call::Truncate { fid, length } => {
            let cut = *length / BLOCK;
            let is_there = *length % BLOCK > 0 && making.was(found, *fid, cut).is_some();
            cut..cut + u32::from(is_there)
        }
        _ => 0..0,
    }
}

fn deltas(
    alloc: Global,
    bench: &Bench,
    making: &mut Making,
    fid: Fid,
    call: &Call,
) -> Mem<(u64, DeltaList)> {
    let found = bench.manager.lookup(alloc, fid, 0, 64)?;
    let version = making.version(&found, fid);
    let mut list = DeltaList::new(alloc)?;
    if version > 0 {
        for block in reach(making, &found, call) {
            list.push(delta(alloc, bench, making, &found, fid, block)?)?;
        }
    }
    Ok((version, list))
}

fn operation(alloc: Global, bench: &Bench, making: &mut Making, what: &Call) -> Mem<Op> {
    let call = making.number;
    Ok(match what {
        Call::Write { fid, offset, bytes } => {
            let (version, deltas) = deltas(alloc, bench, making, *fid, what)?;
            Op::Write {
                call,
                fid: *fid,
                version,
                offset: *offset,
                len: length(bytes.slice()),
                deltas,
            }
        }
        Call::Truncate { fid, length } => {
            let (version, deltas) = deltas(alloc, bench, making, *fid, what)?;
            Op::Cut {
                call,
                fid: *fid,
                version,
                length: *length,
                deltas,
            }
        }
        _ => Op::Name {
            call,
            what: what.copy(alloc)?,
        },
    })
}

/// Carries a call out in the plain tree, and makes the operation of it.
fn draft(alloc: Global, bench: &mut Bench, making: &mut Making, call: &Call) -> Mem<()> {
    let reply = bench.tree.apply(alloc, call)?;
    let op = operation(alloc, bench, making, call)?;
    making.ops.push(op)?;
    making.replies.push(reply)
}

fn make(alloc: Global, bench: &mut Bench, number: u64) -> Mem<Making> {
    let mut making = new_making(alloc, number)?;
    if number < 4 || bench.dice.roll(3) == 0 {
        let call = any_name_call(alloc, &mut bench.dice)?;
        draft(alloc, bench, &mut making, &call)?;
        return Ok(making);
    }
    for _ in 0..=bench.dice.roll(3) {
        let call = any_file_call(alloc, &mut bench.dice)?;
        draft(alloc, bench, &mut making, &call)?;
    }
    Ok(making)
}

fn same_reply(one: &Reply, other: &Reply) -> bool {
    match (one, other) {
        (Reply::Done, Reply::Done) => true,
        (Reply::Made(one), Reply::Made(other)) => one == other,
        (Reply::Refused(one), Reply::Refused(other)) => one == other,
        _ => false,
    }
}

fn same_replies(ones: &[Reply], others: &[Reply]) -> bool {
    ones.len() == others.len()
        && ones
            .iter()
            .zip(others)
            .all(|(one, other)| same_reply(one, other))
}

/// Whether the last batch of the log has these replies.
fn has_replies(manager: &Manager, replies: &[Reply]) -> bool {
    match manager.last(LogId(1)) {
        Some((_, found)) => same_replies(replies, found),
        None => false,
    }
}

/// Commits a random batch. Whether it is taken, and has the plain tree's replies.
fn step(alloc: Global, bench: &mut Bench, number: u64) -> Mem<bool> {
    let making = make(alloc, bench, number)?;
    let piece = Piece {
        stripe: number,
        offset: 0,
        len: 2048,
    };
    let batch = Batch {
        log: LogId(1),
        number,
        ops: making.ops,
    };
    bench.stripes.insert(number, making.bytes)?;
    let is_taken = commit(alloc, &mut bench.manager, &batch, piece)?;
    Ok(is_taken && has_replies(&bench.manager, making.replies.slice()))
}

/// A file's bytes, as the file manager's tables and the stripes show them; none where a stripe is wanting.
fn shown(alloc: Global, bench: &Bench, fid: Fid) -> Mem<ByteList> {
    let found = bench.manager.lookup(alloc, fid, 0, 64)?;
    let mut bytes = ByteList::new(alloc)?;
    for (block, ptr) in found.blocks.slice() {
        let Some(stripe) = bench.stripes.get(&ptr.stripe) else {
            return ByteList::new(alloc);
        };
        let data = bytes_from(alloc, stripe.slice(), ptr.offset as usize, ptr.len as usize)?;
        let place = *block as usize * BLOCK as usize;
        bytes = bytes_written(alloc, bytes.slice(), place, data.slice())?;
    }
    bytes_resized(alloc, bytes.slice(), found.length as usize)
}

/// Whether a file has the bytes that it has in the plain tree.
fn shows_same(alloc: Global, bench: &Bench, fid: Fid) -> Mem<bool> {
    let wanted = read(alloc, &bench.tree, fid, 0, 4096)?;
    let found = shown(alloc, bench, fid)?;
    Ok(found.slice() == wanted.slice())
}

/// Whether a path names the same in the file manager as in the plain tree.
fn names_same(alloc: Global, bench: &Bench, text: &[u8]) -> Mem<bool> {
    let path = path(alloc, text)?;
    let found = bench.manager.names().resolve(&path);
    let wanted = bench.tree.answer(alloc, &Call::Stat(path))?;
    Ok(match (found, wanted) {
        (Ok(Entry::Dir), Reply::Dir) => true,
        (Ok(Entry::File(one)), Reply::File { fid, .. }) => one == fid,
        (Err(one), Reply::Refused(other)) => one == other,
        _ => false,
    })
}

/// Whether all files and names are those of the plain tree.
fn is_same(alloc: Global, bench: &Bench) -> Mem<bool> {
    for fid in 1..=FILES {
        if !shows_same(alloc, bench, Fid(fid))? {
            return Ok(false);
        }
    }
    for text in PATHS {
        if !names_same(alloc, bench, text)? {
            return Ok(false);
        }
    }
    Ok(true)
}

#[test]
fn random_batches_show_the_plain_tree(rt: HostRuntime) -> Result<(), Fail> {
    let alloc = rt.alloc();
    let mut bench = new_bench(alloc)?;
    for number in 1..=100 {
        assert!(rt; step(alloc, &mut bench, number)?, "batch {number} is taken");
        assert!(rt; is_same(alloc, &bench)?, "after batch {number}");
    }
    Ok(())
}
