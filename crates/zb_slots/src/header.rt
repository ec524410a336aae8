ghost use Rattle.std.specs.Prelude.{◌≡◌};
ghost use Rattle.zb_slots.specs.Headers.{said, header_text, name_in, payload_text, Fit, HasRoom};

use crate::number::{u32_at, u64_at};
use zb_types::{FragId, Geometry, LogId};

/// What the header of a slot says: that it is free, or the name and the length in bytes of what it holds, and of a
/// parity its turn, 0 to 2.
#[derive(Clone, Copy, Debug, PartialEq, Eq)]
pub enum Header {
    Free,
    Share { id: FragId, len: u32 },
    Parity { id: FragId, turn: u8, len: u32 },
}

fn payload(id: FragId, kind: u8, turn: u8, len: u32) -> [u8; 40]
    ensures text { result ≡ payload_text id kind turn len }
    ensures room { Fit id len }
{
    let log = id.log.0.to_be_bytes();
    let stripe = id.stripe.to_be_bytes();
    let length = len.to_be_bytes();
    [
        log[0], log[1], log[2], log[3], stripe[0], stripe[1], stripe[2], stripe[3], stripe[4],
        stripe[5], stripe[6], stripe[7], id.index, kind, turn, 0, length[0], length[1], length[2],
        length[3], 0, 0, 0, 0, 0, 0, 0, 0, 0, 0, 0, 0, 0, 0, 0, 0, 0, 0, 0, 0,
    ]
}

/// The payload of a header, whose numbers have room in it.
pub fn spell_header(header: &Header) -> [u8; 40]
    ensures text { result ≡ header_text header.now }
    ensures room { HasRoom header.now }
{
    match *header {
        Header::Free => [0; 40],
        Header::Share { id, len } => payload(id, 1, 0, len),
        Header::Parity { id, turn, len } => payload(id, 2, turn, len),
    }
}

fn name_of(payload: &[u8; 40]) -> FragId
    ensures { result ≡ name_in payload.now }
{
    FragId {
        log: LogId(u32_at(payload, 0)),
        stripe: u64_at(payload, 4),
        index: payload[12],
    }
}

/// What a payload says in a system of these sizes, or that it is bad: its kind, its index, its turn and its length
/// don't go together. Its last 20 bytes aren't looked at, nor the name of a free slot but for its index.
pub fn read_header(geo: &Geometry, payload: &[u8; 40]) -> Option<Header>
    ensures { result ≡ said geo.now.servers geo.now.fragment payload.now }
{
    let id = name_of(payload);
    let turn = payload[14];
    let len = u32_at(payload, 16);
    let index = u32::from(id.index);
    match payload[13] {
        0 if index == 0 && turn == 0 && len == 0 => Some(Header::Free),
        1 if index + 1 < geo.servers && turn == 0 && len <= geo.fragment => {
            Some(Header::Share { id, len })
        }
        2 if index + 1 == geo.servers && turn < 3 && len <= geo.fragment => {
            Some(Header::Parity { id, turn, len })
        }
        _ => None,
    }
}
