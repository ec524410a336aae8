ghost use Rattle.std.specs.Prelude.{◌≡◌, ◌+◌, ◌-◌, ◌/◌, ◌<◌, ◌≤◌, ◌^◌, ◌++◌, nat_le, IfOk, AllPairs, None, length};
ghost use Rattle.std.specs.List.{AllByRecursion};
ghost use Rattle.zb_types.specs.declared.calls.Call.TheVariants.{Truncate};
ghost use Rattle.zb_types.specs.Apply.{max_file};
ghost use Rattle.zb_basis.specs.Operations.{blocks_in};
ghost use Rattle.zb_forming.specs.Drafts.{added, change_at, changes_of, cut_count, draft_of, drafted, is_cut, known, length_at, made_by, merged, no_drafts, version_in, was_bytes, write_count, IsOrdered};

use crate::draft::{Change, ChangeList, Draft, DraftList, Drafts, Was};
use crate::finding::fetched_at;
use crate::standing::{stands, version_in};
use std::alloc::{AllocError, Global};
use zb_basis::{Ask, Fetched, Numbered, ask_of, cut_block, written_block};
use zb_types::{ByteList, Call, Fid, Found, ItemList, MAX_FILE, Mem, NoMemory};

/// Whether so many bytes from an offset on end where a file may.
fn fits(offset: u32, len: usize) -> bool
    ensures { result ≡ nat_le (offset + len) max_file }
{
    len <= MAX_FILE && offset as usize + len <= MAX_FILE
}

/// The change of block `k`, where block `first` is the first that the operation makes anew, at place `start` among the
/// blocks of its batch.
fn change_at(drafts: &[Draft], found: &Found, fid: Fid, first: u32, start: usize, k: u32) -> Change
    requires rise { AllPairs (λ one other. one.0 < other.0) found.now.blocks }
    requires start { start < 2 ^ 63 }
    ensures { result ≡ change_at drafts.now found.now fid.0 first start k }
{
    Change {
        block: k,
        was: stands(drafts, found, fid, k),
        place: start + k.saturating_sub(first) as usize,
    }
}

/// The changes of the blocks from `first` to before `end`.
fn changes_of(
    alloc: Global,
    drafts: &[Draft],
    found: &Found,
    fid: Fid,
    first: u32,
    start: usize,
    end: u32,
) -> Result<Vec<Change>, AllocError>
    requires rise { AllPairs (λ one other. one.0 < other.0) found.now.blocks }
    requires start { start < 2 ^ 63 }
    ensures { IfOk result (λ changes. changes.items ≡ changes_of drafts.now found.now fid.0 first start (end - first)) }
{
    (first..end)
        .map(|k| change_at(drafts, found, fid, first, start, k))
        .collect(alloc)
}

/// How many bytes a block has.
fn length_at(blocks: &[ByteList], was: Was) -> usize
    ensures { result ≡ length_at blocks.now was }
{
    match was {
        Was::Hole => 0,
        Was::Stored(ptr) => ptr.len as usize,
        Was::New(place) => match blocks.get(place) {
            Some(block) => block.len(),
            None => 0,
        },
    }
}

/// Whether the last block that stays of `n` bytes, which has `len`, has more than its rest.
fn is_cut(block: u32, n: u32, len: usize) -> bool
    requires { 0 < block }
    ensures { result ≡ is_cut block n len }
{
    let rest = n % block;
    0 < rest && (rest as usize) < len
}

/// Where the blocks end that a write makes anew, of those that it asks for.
fn write_end(ask: Ask, done: bool) -> u32
    requires { ask.first + ask.count < 2 ^ 32 }
    ensures { result - ask.first ≡ write_count done ask.count }
{
    if done {
        ask.first + ask.count
    } else {
        ask.first
    }
}

/// The operation of a write, behind others.
fn draft_write(
    alloc: Global,
    s: &Drafts,
    found: &Found,
    fid: Fid,
    ask: Ask,
    done: bool,
) -> Mem<Draft>
    requires rise { AllPairs (λ one other. one.0 < other.0) found.now.blocks }
    requires version { found.now.version ≤ 2 ^ 48 }
    requires small { ask.first + ask.count < 2 ^ 32 }
    ensures { IfOk result (λ draft. draft ≡ record {
      fid = fid;
      version = version_in s.now.drafts found.now fid.0;
      done = done;
      left = None;
      first = ask.first;
      changes = changes_of s.now.drafts found.now fid.0 ask.first (length s.now.blocks) (write_count done ask.count);
    }) }
{
    let drafts = s.drafts.slice();
    let start = s.blocks.slice().len();
    let changes = changes_of(
        alloc,
        drafts,
        found,
        fid,
        ask.first,
        start,
        write_end(ask, done),
    )?;
    let changes = ChangeList::of(changes);
    Ok(Draft {
        fid,
        version: version_in(drafts, found, fid),
        done,
        left: None,
        first: ask.first,
        changes,
    })
}

/// Where the blocks end that a truncation to `n` bytes makes anew: behind its last block, where that is longer than its
/// rest.
fn cut_end(block: u32, n: u32, done: bool, len: usize) -> u32
    requires { 0 < block }
    ensures { result - n / block ≡ cut_count block n done len }
{
    let k = n / block;
    if done && is_cut(block, n, len) {
        k + 1
    } else {
        k
    }
}

/// How many blocks `n` bytes reach into.
fn blocks_in(block: u32, n: u32) -> u64
    requires { 0 < block }
    ensures { result ≡ blocks_in block n }
{
    (u64::from(n) + u64::from(block - 1)) / u64::from(block)
}

/// The operation of a truncation to `n` bytes, behind others.
fn draft_cut(alloc: Global, block: u32, s: &Drafts, found: &Found, fid: Fid, n: u32) -> Mem<Draft>
    requires block { 0 < block }
    requires rise { AllPairs (λ one other. one.0 < other.0) found.now.blocks }
    requires version { found.now.version ≤ 2 ^ 48 }
    ensures { IfOk result (λ draft. draft ≡ draft_of block s.now (Truncate fid n) found.now) }
{
    let drafts = s.drafts.slice();
    let start = s.blocks.slice().len();
    let k = n / block;
    let done = found.version != 0 && fits(n, 0);
    let was = stands(drafts, found, fid, k);
    let end = cut_end(block, n, done, length_at(s.blocks.slice(), was));
    let changes = changes_of(alloc, drafts, found, fid, k, start, end)?;
    let changes = ChangeList::of(changes);
    Ok(Draft {
        fid,
        version: version_in(drafts, found, fid),
        done,
        left: Some(blocks_in(block, n)),
        first: k,
        changes,
    })
}

/// The operation of a call, behind others.
pub(crate) fn draft_of(
    alloc: Global,
    block: u32,
    s: &Drafts,
    call: &Call,
    found: &Found,
) -> Mem<Draft>
    requires block { 0 < block }
    requires rise { AllPairs (λ one other. one.0 < other.0) found.now.blocks }
    requires version { found.now.version ≤ 2 ^ 48 }
    ensures { IfOk result (λ draft. draft ≡ draft_of block s.now call.now found.now) }
{
    match call {
        Call::Write { fid, offset, bytes } => {
            let ask = ask_of(block, call);
            let done = found.version != 0 && fits(*offset, bytes.len());
            draft_write(alloc, s, found, *fid, ask, done)
        }
        Call::Truncate { fid, length } => draft_cut(alloc, block, s, found, *fid, *length),
        _ => Ok(Draft {
            fid: Fid(0),
            version: 0,
            done: false,
            left: None,
            first: 0,
            changes: ChangeList::new(alloc)?,
        }),
    }
}

/// The bytes of a block.
fn was_bytes<'a>(was: Was, blocks: &'a [ByteList], fetched: &'a [Fetched]) -> &'a [u8]
    ensures { result.now ≡ was_bytes (known fetched.now) blocks.now was }
{
    match was {
        Was::Hole => &[],
        Was::Stored(ptr) => fetched_at(fetched, ptr),
        Was::New(place) => match blocks.get(place) {
            Some(block) => block.slice(),
            None => &[],
        },
    }
}

/// Block `k` after a call, where it had these bytes.
fn merged(alloc: Global, block: u32, call: &Call, k: u32, old: &[u8]) -> Mem<ByteList>
    ensures { IfOk result (λ made. made ≡ merged block call.now k old.now) }
{
    match call {
        Call::Write { offset, bytes, .. } => {
            written_block(alloc, block, k, old, *offset, bytes.slice())
        }
        Call::Truncate { length, .. } => cut_block(alloc, block, k, old, *length),
        _ => ByteList::new(alloc),
    }
}

/// The block that a change makes.
fn made_of(
    alloc: Global,
    block: u32,
    blocks: &[ByteList],
    fetched: &[Fetched],
    call: &Call,
    change: &Change,
) -> Mem<ByteList>
    ensures { IfOk result (λ made. made ≡ merged block call.now change.now.block (was_bytes (known fetched.now) blocks.now change.now.was)) }
{
    let old = was_bytes(change.was, blocks, fetched);
    merged(alloc, block, call, change.block, old)
}

/// The blocks that a call makes anew.
fn made_by(
    alloc: Global,
    block: u32,
    blocks: &[ByteList],
    fetched: &[Fetched],
    call: &Call,
    changes: &[Change],
) -> Mem<Vec<ByteList>>
    ensures { IfOk result (λ made. made.items ≡ made_by block (known fetched.now) blocks.now call.now changes.now) }
{
    let mut made = Vec::new(alloc);
    for change in changes {
        made.push(made_of(alloc, block, blocks, fetched, call, change)?)?;
    }
    Ok(made)
}

/// These blocks behind others.
fn joined(blocks: ItemList<ByteList>, made: Vec<ByteList>) -> Mem<ItemList<ByteList>>
    ensures { IfOk result (λ all. all ≡ blocks ++ made.items) }
{
    let mut all = blocks.into_items();
    let mut made = made;
    all.append(&mut made)?;
    Ok(ItemList::of(all))
}

/// One more operation.
fn added(
    alloc: Global,
    block: u32,
    s: Drafts,
    call: &Call,
    found: &Found,
    fetched: &[Fetched],
) -> Mem<Drafts>
    requires block { 0 < block }
    requires rise { AllPairs (λ one other. one.0 < other.0) found.now.blocks }
    requires version { found.now.version ≤ 2 ^ 48 }
    ensures { IfOk result (λ new. new ≡ added block (known fetched.now) s call.now found.now) }
{
    let draft = draft_of(alloc, block, &s, call, found)?;
    let made = made_by(
        alloc,
        block,
        s.blocks.slice(),
        fetched,
        call,
        draft.changes.slice(),
    )?;
    let Drafts { mut drafts, blocks } = s;
    drafts.push(draft)?;
    Ok(Drafts {
        drafts,
        blocks: joined(blocks, made)?,
    })
}

/// The operations of some calls, each with what a lookup found for it, behind others.
pub(crate) fn drafted(
    alloc: Global,
    block: u32,
    calls: &[Numbered],
    founds: &[Found],
    s: Drafts,
    fetched: &[Fetched],
) -> Mem<Drafts>
    requires block { 0 < block }
    requires found { AllByRecursion IsOrdered founds.now }
    ensures { IfOk result (λ new. new ≡ drafted block (known fetched.now) calls.now founds.now s) }
{
    let Some((call, calls)) = calls.split_first() else {
        return Ok(s);
    };
    let Some((found, founds)) = founds.split_first() else {
        return Ok(s);
    };
    let s = added(alloc, block, s, &call.call, found, fetched)?;
    drafted(alloc, block, calls, founds, s, fetched)
}

/// No operation yet.
pub(crate) fn no_drafts(alloc: Global) -> Mem<Drafts>
    ensures { IfOk result (λ s. s ≡ no_drafts) }
{
    Ok(Drafts {
        drafts: DraftList::new(alloc)?,
        blocks: ItemList::new(alloc)?,
    })
}
