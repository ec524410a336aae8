ghost use Rattle.std.specs.Prelude.{◌≡◌, IfOk, length};

use std::alloc::Global;
use zb_cell::{get, set};
use zb_ckpt::{CkptFault, Root, read, write};
use zb_devices::MemOutside;
use zb_outside::{Bay, Fused};
use zb_types::{ByteList, Failed, Geometry};

// A settled platter 0 with room for the journal, all zeros, whose restart leaves what this choice says.
fn platter(alloc: Global, choice: u8) -> Result<Fused<MemOutside>, Failed> {
    let Ok(memory) = MemOutside::new(alloc, b"", &[choice], &[]) else {
        return Err(Failed);
    };
    let mut bay = Fused::new(memory);
    bay.write_at(0, 69_631, &[0])?;
    bay.sync(0)?;
    Ok(bay)
}

// The root of an empty checkpoint in this slot, with this number of the first entry.
fn root(slot: u8, first: u64) -> Result<Root, CkptFault>
    ensures { IfOk result (λ root. root.first ≡ first) }
{
    let Ok(geo) = Geometry::new(3, 1, 256, 64, 8) else {
        return Err(CkptFault::NoMemory);
    };
    Ok(Root {
        slot,
        geo,
        length: 0,
        first,
    })
}

// So many bytes that are all the same.
fn bytes(alloc: Global, byte: u8, count: usize) -> Result<ByteList, CkptFault>
    ensures { IfOk result (λ list. length list ≡ count) }
{
    Ok(ByteList::of(vec![in alloc; byte; count]?))
}

const ROOT: [u8; 40] = [
    90, 66, 82, 77, 0, 0, 0, 1, 0, 3, 1, 0, 0, 0, 1, 0, 0, 0, 0, 64, 0, 0, 0, 8, 0, 0, 0, 0, 0, 1,
    17, 112, 0, 0, 0, 0, 0, 0, 0, 1,
];

// The platter with 70,000 bytes of 5 in slot 0.
fn first(alloc: Global, choice: u8) -> Result<Fused<MemOutside>, CkptFault> {
    let mut bay = platter(alloc, choice)?;
    write(&mut bay, &root(1, 1)?, &bytes(alloc, 5, 70_000)?)?;
    Ok(bay)
}

#[test]
fn the_root_has_its_bytes(rt: HostRuntime) {
    let mut bay = first(rt.alloc(), 0).expect(&rt, "a checkpoint");
    assert!(rt; get(&mut bay, 0, 0) == Ok(ROOT));
}

// The choice, the writes that pass before the one that stops the second checkpoint (three pages, and two writes of the
// cell), and the length and the first byte of the one that is found.
const STOPS: [(u8, u8, u64, u8); 15] = [
    (0, 0, 70_000, 5),
    (1, 0, 70_000, 5),
    (7, 0, 70_000, 5),
    (0, 1, 70_000, 5),
    (1, 1, 70_000, 5),
    (7, 1, 70_000, 5),
    (0, 2, 70_000, 5),
    (1, 2, 70_000, 5),
    (7, 2, 70_000, 5),
    (0, 3, 70_000, 5),
    (1, 3, 70_000, 5),
    (7, 3, 70_000, 5),
    (0, 4, 70_000, 5),
    (1, 4, 140_000, 6),
    (7, 4, 70_000, 5),
];

// The platter, restarted after a second checkpoint has stopped so.
fn stopped(alloc: Global, choice: u8, passed: u8) -> Result<Fused<MemOutside>, CkptFault> {
    let mut bay = first(alloc, choice)?;
    bay.arm(0, u64::from(passed) + 1);
    let second = bytes(alloc, 6, 140_000)?;
    let Err(CkptFault::Stopped) = write(&mut bay, &root(0, 9)?, &second) else {
        return Err(CkptFault::NoMemory);
    };
    bay.disarm(0);
    bay.restart(0)?;
    Ok(bay)
}

// The length of the checkpoint that is found, and its byte, where all are the same.
fn found(alloc: Global, bay: &mut Fused<MemOutside>) -> Result<(u64, u8), CkptFault> {
    let (root, found) = read(alloc, bay)?;
    let byte = if root.slot == 0 { 5 } else { 6 };
    if found.slice().iter().any(|one| *one != byte) {
        return Err(CkptFault::NoMemory);
    }
    Ok((found.len() as u64, byte))
}

#[test]
fn a_stop_leaves_the_former_checkpoint_or_the_new(rt: HostRuntime) {
    for (choice, passed, length, byte) in STOPS {
        let mut bay = stopped(rt.alloc(), choice, passed).expect(&rt, "a checkpoint");
        assert!(rt; found(rt.alloc(), &mut bay) == Ok((length, byte)));
    }
}

// A byte of the root cell, where it stands, and the field that is wrong with it.
const FIELDS: [(u8, u8, u8); 14] = [
    (0, 91, 1),
    (7, 2, 2),
    (8, 2, 3),
    (9, 2, 4),
    (10, 9, 4),
    (11, 1, 4),
    (15, 1, 4),
    (19, 65, 4),
    (23, 7, 4),
    (26, 2, 5),
    (24, 1, 5),
    (39, 0, 6),
    (33, 2, 6),
    (32, 1, 6),
];

// What is read where one byte of the root cell is this one.
fn with_byte(alloc: Global, at: u8, byte: u8) -> Result<(Root, ByteList), CkptFault> {
    let mut bay = first(alloc, 0)?;
    let mut payload = ROOT;
    if at < 40 {
        payload[usize::from(at)] = byte;
    }
    if set(&mut bay, 0, 0, &payload).is_err() {
        return Err(CkptFault::Stopped);
    }
    read(alloc, &mut bay)
}

#[test]
fn the_first_wrong_field_of_the_root_is_told(rt: HostRuntime) {
    for (at, byte, wrong) in FIELDS {
        let found = with_byte(rt.alloc(), at, byte);
        assert!(rt; matches!(found, Err(CkptFault::Foreign { field }) if field == wrong));
    }
}

#[test]
fn a_platter_without_a_root_is_foreign(rt: HostRuntime) {
    let mut bay = platter(rt.alloc(), 0).expect(&rt, "memory");
    let found = read(rt.alloc(), &mut bay);
    assert!(rt; matches!(found, Err(CkptFault::Foreign { field: 1 })));
}
