ghost use Rattle.std.specs.Prelude.{◌≡◌, ◌≤◌, ◌++◌, ◌↔◌, ℕ, List, drop, length, IfOk, IfSome, OnOk, IsTrue, Some, not};
ghost use Rattle.std.specs.List.{list_all};
ghost use Rattle.std.specs.Option.{option_map};
ghost use Rattle.zb_numbers.specs.Fronts.{ReadsFront};
ghost use Rattle.zb_numbers.specs.Numbers.{IsBelow};
ghost use Rattle.zb_batch.specs.Spelling.{ops_text, meta_length, spelling_of_batch};
ghost use Rattle.zb_batch.specs.Batches.{is_alone, is_company, IsSpellable, IsBatch};
ghost use Rattle.zb_batch.specs.Reading.{header_of, Agrees};

use crate::header::{Header, LENGTH, push_header, read_header};
use crate::lengths::{count_deltas, ops_len};
use crate::op_reading::read_ops;
use crate::op_writing::push_ops;
use std::alloc::Global;
use zb_delta::DeltaList;
use zb_types::{ByteList, Call, Fid, ItemList, LogId, Mem, NoMemory};

/// How many operations may stand together.
const MOST: usize = 8;

/// An operation of a batch. But for a clean it has its call's number.
#[derive(Drop)]
pub enum Op {
    /// A call that creates, removes or renames.
    Name {
        call: u64,
        what: Call,
    },
    /// A write of `len` bytes at `offset`, to a file as it was looked up at `version`, 0 for none.
    Write {
        call: u64,
        fid: Fid,
        version: u64,
        offset: u32,
        len: u32,
        deltas: DeltaList,
    },
    /// A truncation to `length` bytes.
    Cut {
        call: u64,
        fid: Fid,
        version: u64,
        length: u32,
        deltas: DeltaList,
    },
    Sync {
        call: u64,
    },
    /// Blocks that the cleaner moved.
    Clean {
        deltas: DeltaList,
    },
}

/// Operations.
pub type OpList = ItemList<Op>;

/// What is committed at once: batch `number` of a log, from 1.
#[derive(Drop)]
pub struct Batch {
    pub log: LogId,
    pub number: u64,
    pub ops: OpList,
}

fn is_alone(op: &Op) -> bool
    ensures { result ≡ is_alone op.now }
{
    matches!(op, Op::Name { .. } | Op::Clean { .. })
}

fn none_alone(ops: &[Op]) -> bool
    ensures { result ≡ list_all (λ op. not (is_alone op)) ops.now }
{
    ops.iter().all(|op| !is_alone(op))
}

pub(crate) fn is_company(ops: &[Op]) -> bool
    ensures { result ≡ is_company ops.now }
{
    match ops {
        [] => false,
        [_] => true,
        _ => ops.len() <= MOST && none_alone(ops),
    }
}

// Whether the header is that of these operations, which take so many bytes and may stand together.
fn agrees(header: &Header, ops: &[Op], taken: usize) -> bool
    requires { taken ≡ length (ops_text ops.now) }
    ensures { IsTrue result ↔ Agrees header.now ops.now }
{
    if header.number == 0 || !is_company(ops) {
        return false;
    }
    if taken >= u32::MAX as usize || LENGTH + taken != header.size as usize {
        return false;
    }
    count_deltas(ops) == header.deltas as usize
}

fn read_front(alloc: Global, bytes: &[u8]) -> Mem<Option<(Batch, &[u8])>>
    ensures { IfOk result (λ found.
        ReadsFront IsBatch spelling_of_batch bytes.now (option_map (λ f. (f.0, f.1.now)) found)) }
{
    let Some((header, rest)) = read_header(bytes) else {
        return Ok(None);
    };
    let Some((ops, behind)) = read_ops(alloc, header.ops, rest)? else {
        return Ok(None);
    };
    let taken = rest.len() - behind.len();
    if !agrees(&header, &ops, taken) {
        return Ok(None);
    }
    let batch = Batch {
        log: header.log,
        number: header.number,
        ops: OpList::of(ops),
    };
    Ok(Some((batch, behind)))
}

impl Batch {
    /// How many bytes its meta part takes. Its operations have to be of its kinds, and so short that this number has
    /// room.
    pub fn meta_len(&self) -> u32
        requires { IsSpellable self.now }
        ensures { result ≡ meta_length self.now }
    {
        (LENGTH + ops_len(self.ops.slice())) as u32
    }

    fn header(&self) -> Header
        requires { IsSpellable self.now }
        ensures { result ≡ header_of self.now }
    {
        Header {
            log: self.log,
            number: self.number,
            size: self.meta_len(),
            ops: self.ops.len() as u16,
            deltas: count_deltas(self.ops.slice()) as u32,
        }
    }

    /// The bytes of its meta part.
    pub fn write(&self, alloc: Global) -> Mem<ByteList>
        requires { IsSpellable self.now }
        ensures text { IfOk result (λ text. text ≡ spelling_of_batch self.now) }

        // A batch with a number of at least 1 is read back from them.
        ensures again { OnOk result (1 ≤ self.now.number → IsBatch self.now) }
    {
        let mut text = ByteList::new(alloc)?;
        push_header(alloc, &mut text, &self.header())?;
        push_ops(alloc, &mut text, self.ops.slice())?;
        Ok(text)
    }

    /// The batch that the bytes begin with. None exactly where they begin with none.
    pub fn read(alloc: Global, bytes: &[u8]) -> Mem<Option<Batch>>
        ensures found { IfOk result (λ found.
            ReadsFront IsBatch spelling_of_batch bytes.now (option_map (λ batch. (batch, drop (meta_length batch) bytes.now)) found)) }

        // What is read may be written.
        ensures spellable { IfOk result (λ found. IfSome found IsSpellable) }

        // What is spelled is read, whatever follows.
        ensures again { (batch : Batch) (rest : List ℕ) → IsBatch batch → spelling_of_batch batch ++ rest ≡ bytes.now
            → IfOk result (λ found. found ≡ Some batch) }
    {
        match read_front(alloc, bytes)? {
            Some((batch, _)) => Ok(Some(batch)),
            None => Ok(None),
        }
    }
}
