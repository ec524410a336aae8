ghost use Rattle.std.specs.Prelude.{◌≡◌, ◌≤◌, IfOk, OnOk};
ghost use Rattle.zb_log.specs.Placing.{last_stripe};

use std::alloc::Global;
use std::test::Fail;
use zb_log::{LogBuf, LogFault, Placed, no_address_twice};
use zb_types::{ByteList, Geometry, LogId, Piece, Ptr};

/// The stripe of a part, where its new bytes begin, how many they are, the first of them, and how long its parity is.
type Told = (u64, u32, usize, Option<u8>, usize);

/// Places and seals a batch, so many bytes 7 as its meta part and a block of so many bytes 9, and lets the log go on
/// behind it.
fn commit(
    log: &mut LogBuf,
    alloc: Global,
    meta: u32,
    block: u32,
) -> Result<(Placed, Vec<Told>), LogFault>
    requires some { 1 ≤ block }
    requires fits { block ≤ log.old.block }
    ensures block { OnOk result (log.new.block ≡ log.old.block) }
    ensures next { IfOk result (λ done. log.new.next ≡ done.0.next) }
    ensures last { IfOk result (λ done. done.0.next.stripe ≤ last_stripe) }
{
    let meta = ByteList::of(vec![in alloc; 7u8; meta as usize]?);
    let block = ByteList::of(vec![in alloc; 9u8; block as usize]?);
    let placed = log.place(alloc, meta.len() as u32, &[block.len() as u32])?;
    let fresh = log.seal(alloc, &placed, &meta, &[block])?;
    let mut told = Vec::new(alloc);
    for part in fresh.parts.slice() {
        told.push((
            part.stripe,
            part.begin,
            part.bytes.len(),
            part.bytes.get(0).copied(),
            part.parity.len(),
        ))?;
    }
    log.go_on(&placed, fresh);
    Ok((placed, told))
}

fn piece(stripe: u64, offset: u32, len: u32) -> Piece {
    Piece {
        stripe,
        offset,
        len,
    }
}

fn ptr(stripe: u64, offset: u32, len: u32) -> Ptr {
    Ptr {
        log: LogId(1),
        stripe,
        offset,
        len,
    }
}

/// Places and seals a batch of a meta part alone, of so many bytes, and lets the log go on behind it.
fn commit_meta(log: &mut LogBuf, alloc: Global, len: u32) -> Result<Placed, LogFault> {
    let placed = log.place(alloc, len, &[])?;
    let meta = ByteList::of(vec![in alloc; 7u8; len as usize]?);
    let fresh = log.seal(alloc, &placed, &meta, &[])?;
    log.go_on(&placed, fresh);
    Ok(placed)
}

#[test]
fn a_write_follows_a_create(rt: HostRuntime) -> Result<(), Fail> {
    let alloc = rt.alloc();
    let geo = Geometry::new(3, 1, 256, 64, 8)?;
    let mut log = LogBuf::new(alloc, &geo, LogId(1))?;
    let created = commit_meta(&mut log, alloc, 45)?;
    assert_eq!(rt; created.pieces.slice(), [piece(0, 0, 45)].as_slice());
    let written = commit_meta(&mut log, alloc, 132)?;
    assert_eq!(rt; written.pieces.slice(), [piece(0, 45, 132)].as_slice());
    no_address_twice();
    Ok(())
}

/// What a batch is to be told as: its pieces, its block's place, and the new bytes of its parts.
#[derive(Drop)]
struct Wanted {
    pieces: [Piece; 2],
    block: Ptr,
    parts: [Told; 2],
}

impl Wanted {
    fn is_told(&self, placed: &Placed, told: &[Told]) -> bool {
        placed.pieces.slice() == self.pieces.as_slice()
            && placed.ptrs.slice() == [self.block].as_slice()
            && told == self.parts.as_slice()
    }
}

/// The first batch fills stripe 0 but for 32 bytes, and its block goes to the next.
fn first_wanted(room: u32) -> Wanted
    requires { (512 ≤ room) × (room ≤ 65536) }
{
    Wanted {
        pieces: [piece(0, 0, room - 32), piece(1, 0, 64)],
        block: ptr(1, 0, 64),
        parts: [
            (0, 0, room as usize - 32, Some(7), 256),
            (1, 0, 64, Some(9), 64),
        ],
    }
}

/// The second one fills stripe 1, and goes on in stripe 2.
fn second_wanted(room: u32) -> Wanted
    requires { (512 ≤ room) × (room ≤ 65536) }
{
    Wanted {
        pieces: [piece(1, 64, room - 64), piece(2, 0, 128)],
        block: ptr(2, 64, 64),
        parts: [
            (1, 64, room as usize - 64, Some(7), 256),
            (2, 0, 128, Some(7), 128),
        ],
    }
}

/// Commits a batch with a block of 64 bytes, and says whether it is told as wanted.
fn is_committed(
    log: &mut LogBuf,
    alloc: Global,
    meta: u32,
    wanted: &Wanted,
) -> Result<bool, LogFault>
    requires fits { 64 ≤ log.old.block }
    ensures block { OnOk result (log.new.block ≡ log.old.block) }
{
    let (placed, told) = commit(log, alloc, meta, 64)?;
    Ok(wanted.is_told(&placed, &told))
}

/// A log over the stripes of so many servers.
fn goes_on(alloc: Global, servers: u32) -> Result<bool, Fail>
    requires { (3 ≤ servers) × (servers ≤ 16) }
{
    let geo = Geometry::new(servers, 1, 256, 64, 8)?;
    let room = (servers - 1) * 256;
    let mut log = LogBuf::new(alloc, &geo, LogId(1))?;
    let first = is_committed(&mut log, alloc, room - 32, &first_wanted(room))?;
    let second = is_committed(&mut log, alloc, room, &second_wanted(room))?;
    Ok(first && second)
}

#[test]
fn a_log_goes_on_over_stripes(rt: HostRuntime) -> Result<(), Fail> {
    for servers in [3, 16] {
        assert!(rt; goes_on(rt.alloc(), servers)?);
    }
    Ok(())
}

#[test]
fn a_log_goes_on_behind_a_stripe(rt: HostRuntime) -> Result<(), Fail> {
    let geo = Geometry::new(3, 1, 256, 64, 8)?;
    let mut log = LogBuf::new(rt.alloc(), &geo, LogId(1))?;
    let (first, _) = commit(&mut log, rt.alloc(), 480, 64)?;
    log.next_stripe(first.next.stripe);
    let then = log.place(rt.alloc(), 10, &[1])?;
    assert_eq!(rt; then.pieces.slice(), [piece(2, 0, 11)].as_slice());
    assert_eq!(rt; then.ptrs.slice(), [ptr(2, 10, 1)].as_slice());
    Ok(())
}

#[test]
fn the_last_stripe_is_filled(rt: HostRuntime) -> Result<(), Fail> {
    let geo = Geometry::new(3, 1, 256, 64, 8)?;
    let mut log = LogBuf::new(rt.alloc(), &geo, LogId(1))?;
    log.next_stripe(281_474_976_710_655);
    let (placed, _) = commit(&mut log, rt.alloc(), 511, 1)?;
    assert_eq!(rt;
        placed.pieces.slice(),
        [piece(281_474_976_710_656, 0, 512)].as_slice()
    );
    let fault = log.place(rt.alloc(), 1, &[]).err();
    assert_eq!(rt; fault, Some(LogFault::Worn));
    Ok(())
}
