use crate::bench::{Broken, Device, Do, change, device, finds, started, tables};
use crate::stripes::holding;
use std::alloc::Global;
use std::test::Fail;
use zb_replay::PiecesFault;
use zb_types::{ByteList, LogId, Mem, Piece, ServerId};

// Each server is lost in turn, or none is.
const LOST: [Option<ServerId>; 4] = [
    None,
    Some(ServerId(1)),
    Some(ServerId(2)),
    Some(ServerId(3)),
];

// The tables of a node that has committed two batches, in two pieces of one stripe.
fn committed(alloc: Global, bay: &mut Device) -> Result<ByteList, Broken> {
    let mut node = started(alloc, bay)?;
    change(alloc, bay, &mut node, Do::Commit)?;
    tables(alloc, &node)
}

// Whether that node is found.
fn is_found(alloc: Global, lost: Option<ServerId>) -> Result<bool, Broken> {
    let mut bay = device(alloc, 0)?;
    let left = committed(alloc, &mut bay)?;
    finds(alloc, &mut bay, lost, &left)
}

#[test]
fn two_batches_are_found_with_any_server_lost(rt: HostRuntime) -> Result<(), Fail> {
    for lost in LOST {
        assert!(rt; is_found(rt.alloc(), lost)?);
    }
    Ok(())
}

// So many bytes that differ by place, from a place on.
fn pattern(alloc: Global, from: u32, count: u32) -> Mem<ByteList> {
    let mut bytes = ByteList::new(alloc)?;
    for i in 0..count {
        bytes.push(((u64::from(from) + u64::from(i)) % 251) as u8)?;
    }
    Ok(bytes)
}

// What is read where stripe 0 has so many bytes, and no other has any.
fn read(
    alloc: Global,
    lost: Option<ServerId>,
    whole: u32,
    piece: Piece,
) -> Result<Result<ByteList, PiecesFault>, Broken> {
    let bytes = pattern(alloc, 0, whole)?;
    let mut servers = holding(alloc, bytes.slice(), lost)?;
    Ok(servers.read_pieces(alloc, LogId(1), &[piece]))
}

// Whether a piece is read where its stripe has all of its bytes, and is else missing.
fn is_read(
    alloc: Global,
    lost: Option<ServerId>,
    whole: u32,
    piece: Piece,
) -> Result<bool, Broken> {
    let held = if piece.stripe == 0 {
        u64::from(whole)
    } else {
        0
    };
    let end = u64::from(piece.offset) + u64::from(piece.len);
    match read(alloc, lost, whole, piece)? {
        Ok(bytes) => {
            let wanted = pattern(alloc, piece.offset, piece.len)?;
            Ok(end <= held && bytes.slice() == wanted.slice())
        }
        Err(fault) => Ok(end > held && fault == PiecesFault::Missing),
    }
}

// How many bytes stripe 0 has, and the stripe, the offset and the length of a piece.
const PIECES: [(u32, u64, u32, u32); 12] = [
    (300, 0, 0, 300),
    (300, 0, 250, 10),
    (300, 0, 0, 0),
    (300, 0, 300, 0),
    (300, 0, 255, 2),
    (512, 0, 0, 512),
    (512, 0, 100, 400),
    (300, 0, 300, 1),
    (300, 0, 301, 0),
    (512, 0, 500, 13),
    (300, 1, 0, 0),
    (300, 1, 0, 1),
];

// Whether each of those pieces is read so.
fn are_read(alloc: Global, lost: Option<ServerId>) -> Result<bool, Broken> {
    for (whole, stripe, offset, len) in PIECES {
        let piece = Piece {
            stripe,
            offset,
            len,
        };
        if !is_read(alloc, lost, whole, piece)? {
            return Ok(false);
        }
    }
    Ok(true)
}

#[test]
fn pieces_are_read_with_any_server_lost(rt: HostRuntime) -> Result<(), Fail> {
    for lost in LOST {
        assert!(rt; are_read(rt.alloc(), lost)?);
    }
    Ok(())
}
