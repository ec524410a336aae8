ghost use Rattle.std.specs.Prelude.{◌≡◌, ◌≤◌, ◌++◌, ◌∷◌, [], length, IfOk, OnOk};
ghost use Rattle.std.specs.List.{flat_map, AllByRecursion};
ghost use Rattle.zb_journal.specs.Spelling.{pieces_of, fields_text, piece_text, body_text, IsPiece, IsFields, IsEntry};

use crate::fields::{Fields, fields_in, pieces};
use std::alloc::Global;
use zb_entries::Entry;
use zb_numbers::{append, push_u16, push_u32, push_u64};
use zb_types::{ByteList, Mem, NoMemory, Piece};

fn push_fields(alloc: Global, to: &mut ByteList, fields: &Fields, number: u64) -> Mem<()>
    ensures ok { OnOk result (to.new ≡ to.old ++ fields_text fields.now number) }
    ensures room { OnOk result (IsFields fields.now) }
{
    append(alloc, to, &[fields.kind])?;
    push_u16(alloc, to, fields.count)?;
    push_u32(alloc, to, fields.who)?;
    push_u64(alloc, to, fields.what)?;
    push_u64(alloc, to, fields.generation)?;
    push_u64(alloc, to, number)
}

fn push_piece(alloc: Global, to: &mut ByteList, piece: &Piece) -> Mem<()>
    ensures ok { OnOk result (to.new ≡ to.old ++ piece_text piece.now) }
    ensures room { OnOk result (IsPiece piece.now) }
{
    push_u64(alloc, to, piece.stripe)?;
    push_u32(alloc, to, piece.offset)?;
    push_u32(alloc, to, piece.len)
}

fn push_pieces(alloc: Global, to: &mut ByteList, pieces: &[Piece]) -> Mem<()>
    ensures ok { OnOk result (to.new ≡ to.old ++ flat_map piece_text pieces.now) }
    ensures room { OnOk result (AllByRecursion IsPiece pieces.now) }
{
    let mut rest = pieces;
    while let [piece, others @ ..] = rest {
        push_piece(alloc, to, piece)?;
        rest = others;
    }
    Ok(())
}

/// What stands behind the gate of an entry with this number, and the closed gate behind it.
pub(crate) fn spelled(alloc: Global, entry: &Entry, number: u64) -> Mem<ByteList>
    requires { length (pieces_of entry.now) ≤ 65535 }
    ensures text { IfOk result (λ text. text ≡ body_text number entry.now ++ 0 ∷ []) }
    ensures entry { OnOk result (IsEntry entry.now) }
{
    let mut text = ByteList::new(alloc)?;
    push_fields(alloc, &mut text, &fields_in(entry), number)?;
    push_pieces(alloc, &mut text, pieces(entry))?;
    append(alloc, &mut text, &[0])?;
    Ok(text)
}
