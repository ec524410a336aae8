ghost use Rattle.std.specs.Prelude.{◌≡◌, ◌+◌, ◌≤◌, ◌<◌, ◌^◌, ◌++◌, ℕ, length, OnOk};
ghost use Rattle.std.specs.List.{flat_map, AllByRecursion};
ghost use Rattle.std.specs.Option.{option_map};
ghost use Rattle.zb_types.specs.declared.ids.Ptr.{Ptr as PlainPtr};
ghost use Rattle.zb_numbers.specs.Fronts.{ReadsFront};
ghost use Rattle.zb_delta.specs.Spelling.{IsPtr, ptr_text};
ghost use Rattle.zb_pointers.specs.Seen.{numbered_file};
ghost use Rattle.zb_tables.specs.Tables.{FileState};
ghost use Rattle.zb_spelling.specs.Spelling.{block_text, file_text, list_text};
ghost use Rattle.zb_spelling.specs.Reading.{IsBlock, IsFileRow, shown_file};

use crate::listed::{Readable, Written, push_count, push_list, read_list};
use crate::rows::FileRow;
use std::alloc::Global;
use zb_numbers::{push_u32, push_u64, split_u32, split_u64};
use zb_pointers::{FileHead, Pointers};
use zb_types::{ByteList, Fid, LogId, Mem, NoMemory, Ptr};

/// How many bytes a block takes.
const BLOCK: usize = 24;

/// How many bytes of a file stand before its blocks.
const FILE: usize = 16;

fn read_ptr(bytes: &[u8]) -> (Ptr, &[u8])
    requires { 20 ≤ length bytes.now }
    ensures whole { ptr_text result.0 ++ result.1.now ≡ bytes.now }
    ensures room { IsPtr result.0 }
{
    let (log, rest) = split_u32(bytes);
    let (stripe, rest) = split_u64(rest);
    let (offset, rest) = split_u32(rest);
    let (len, rest) = split_u32(rest);
    let log = LogId(log);
    (
        Ptr {
            log,
            stripe,
            offset,
            len,
        },
        rest,
    )
}

fn push_ptr(alloc: Global, to: &mut ByteList, ptr: &Ptr) -> Mem<()>
    ensures { OnOk result (to.new ≡ to.old ++ ptr_text ptr.now) }
{
    push_u32(alloc, to, ptr.log.0)?;
    push_u64(alloc, to, ptr.stripe)?;
    push_u32(alloc, to, ptr.offset)?;
    push_u32(alloc, to, ptr.len)
}

impl Written for (u32, Ptr) {
    ghost text = { block_text };

    fn push(&self, alloc: Global, to: &mut ByteList) -> Mem<()> {
        push_u32(alloc, to, self.0)?;
        push_ptr(alloc, to, &self.1)
    }
}

impl Readable for (u32, Ptr) {
    ghost Plain = { ℕ × PlainPtr };

    ghost plain = { λ block. block };

    ghost Is = { IsBlock };

    ghost text = { block_text };

    fn read(_alloc: Global, bytes: &[u8]) -> Mem<Option<((u32, Ptr), &[u8])>> {
        if bytes.len() < BLOCK {
            return Ok(None);
        }
        let (number, rest) = split_u32(bytes);
        let (ptr, rest) = read_ptr(rest);
        Ok(Some(((number, ptr), rest)))
    }
}

impl Readable for FileRow {
    ghost Plain = { ℕ × FileState };

    ghost plain = { shown_file };

    ghost Is = { IsFileRow };

    ghost text = { file_text };

    fn read(alloc: Global, bytes: &[u8]) -> Mem<Option<(FileRow, &[u8])>> {
        if bytes.len() < FILE {
            return Ok(None);
        }
        let (fid, rest) = split_u32(bytes);
        let (version, rest) = split_u64(rest);
        let (length, rest) = split_u32(rest);
        let Some((blocks, rest)) = read_list::<(u32, Ptr)>(alloc, rest)? else {
            return Ok(None);
        };
        let row = FileRow {
            fid: Fid(fid),
            head: FileHead { version, length },
            blocks,
        };
        Ok(Some((row, rest)))
    }
}

fn push_file(
    alloc: Global,
    to: &mut ByteList,
    fid: Fid,
    head: FileHead,
    blocks: &[(u32, Ptr)],
) -> Mem<()>
    ensures text { OnOk result (to.new ≡ to.old ++ file_text (numbered_file fid head blocks.now)) }
    ensures count { OnOk result (length blocks.now < 2 ^ 32) }
{
    push_u32(alloc, to, fid.0)?;
    push_u64(alloc, to, head.version)?;
    push_u32(alloc, to, head.length)?;
    push_list(alloc, to, blocks)
}

fn push_all(alloc: Global, to: &mut ByteList, pointers: &Pointers) -> Mem<()>
    ensures text { OnOk result (to.new ≡ to.old ++ flat_map file_text pointers.now.files) }
    ensures counts { OnOk result (AllByRecursion (λ e. length (e.1).blocks < 2 ^ 32) pointers.now.files) }
{
    let mut files = pointers.files();
    while let Some((fid, head, blocks)) = files.next() {
        push_file(alloc, to, fid, head, blocks)?;
    }
    Ok(())
}

/// Writes the files behind their count, or a part of that where memory runs out, or where a count has no room.
pub(crate) fn push_files(alloc: Global, to: &mut ByteList, pointers: &Pointers) -> Mem<()>
    ensures text { OnOk result (to.new ≡ to.old ++ list_text file_text pointers.now.files) }
    ensures counts { OnOk result (AllByRecursion (λ e. length (e.1).blocks < 2 ^ 32) pointers.now.files) }
{
    push_count(alloc, to, pointers.count())?;
    push_all(alloc, to, pointers)
}
