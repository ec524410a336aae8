ghost use Rattle.std.specs.Prelude.{◌≡◌, ◌≤◌, ◌↔◌, IsTrue, length};
ghost use Rattle.std.specs.List.{AllByRecursion};
ghost use Rattle.zb_delta.specs.Spelling.{body_of as new_body};
ghost use Rattle.zb_batch.specs.Spelling.{deltas_of};
ghost use Rattle.zb_tables.specs.Pointing.{AllNow};
ghost use Rattle.zb_tables.specs.Taking.{IsPiece, IsPointer};
ghost use Rattle.zb_manager.specs.Managers.{sizes_of};

use crate::values::LAST_VALUE;
use crate::working::body_of;
use zb_batch::Op;
use zb_delta::Delta;
use zb_spelling::{is_pointer, stripe_room};
use zb_types::{Geometry, Piece};

/// How many pieces a commit has at most.
const MOST_PIECES: usize = 4_093;

fn points_within(geo: &Geometry, delta: &Delta) -> bool
    ensures { IsTrue result ↔ IsPointer (sizes_of geo.now) (new_body delta.now).now }
{
    is_pointer(geo, &body_of(delta).now)
}

fn point_within(geo: &Geometry, deltas: &[Delta]) -> bool
    ensures { IsTrue result ↔ AllNow (IsPointer (sizes_of geo.now)) deltas.now }
{
    deltas.iter().all(|delta| points_within(geo, delta))
}

/// Whether the new pointers of all operations lie within stripes.
pub(crate) fn all_point_within(geo: &Geometry, ops: &[Op]) -> bool
    ensures { IsTrue result ↔ AllByRecursion (λ o. AllNow (IsPointer (sizes_of geo.now)) (deltas_of o)) ops.now }
{
    ops.iter().all(|op| point_within(geo, op.deltas()))
}

fn is_piece(geo: &Geometry, piece: &Piece) -> bool
    ensures { IsTrue result ↔ IsPiece (sizes_of geo.now) piece.now }
{
    let end = u64::from(piece.offset) + u64::from(piece.len);
    piece.stripe <= LAST_VALUE && 1 <= end && end <= stripe_room(geo)
}

/// Whether the pieces lie within stripes.
pub(crate) fn are_pieces(geo: &Geometry, pieces: &[Piece]) -> bool
    ensures { IsTrue result ↔ AllByRecursion (IsPiece (sizes_of geo.now)) pieces.now }
{
    pieces.iter().all(|piece| is_piece(geo, piece))
}

/// Whether they are as many as a commit may have.
pub(crate) fn is_count(pieces: &[Piece]) -> bool
    ensures { IsTrue result ↔ ((1 ≤ length pieces.now) × (length pieces.now ≤ 4093)) }
{
    1 <= pieces.len() && pieces.len() <= MOST_PIECES
}
