use crate::bench::{Broken, Device, device, started};
use crate::stripes::{batch, bytes_of, holding, stripe};
use std::alloc::Global;
use std::test::Fail;
use zb_outside::Bay;
use zb_replay::{ManagerNode, OpenFault};
use zb_types::ByteList;

// Where a byte of the platter is another, and the field that is wrong with it: bytes of the root's second copy, of the
// checkpoint, and of the second entry, which commits a batch.
const BYTES: [(u64, u8, u8); 12] = [
    (8, 91, 1),
    (15, 2, 2),
    (16, 2, 3),
    (17, 2, 4),
    (34, 2, 5),
    (47, 0, 6),
    (1_048_579, 0, 7),
    (1_048_603, 2, 7),
    (4_096 + 32 + 1, 9, 8),
    (4_096 + 32 + 3, 2, 8),
    (4_096 + 32 + 15, 2, 8),
    (4_096 + 32 + 23, 2, 8),
];

// Why the node isn't opened where stripe 0 of log 1 has these bytes.
fn refusal(alloc: Global, bay: &mut Device, bytes: &[u8]) -> Result<Option<OpenFault>, Broken> {
    let mut servers = holding(alloc, bytes, None)?;
    Ok(ManagerNode::open(alloc, bay, &mut servers).err())
}

// A node with a commit is made, and a byte of its platter is then this one.
fn spoil(alloc: Global, bay: &mut Device, at: u64, byte: u8) -> Result<(), Broken> {
    started(alloc, bay)?;
    if at < 2_000_000 {
        bay.write_at(0, at, &[byte])?;
    }
    bay.sync(0)?;
    Ok(())
}

// Why such a node isn't opened.
fn refusal_with(alloc: Global, at: u64, byte: u8) -> Result<Option<OpenFault>, Broken> {
    let bytes = stripe(alloc)?;
    let mut bay = device(alloc, 0)?;
    spoil(alloc, &mut bay, at, byte)?;
    refusal(alloc, &mut bay, bytes.slice())
}

#[test]
fn the_first_wrong_field_is_told(rt: HostRuntime) -> Result<(), Fail> {
    for (at, byte, field) in BYTES {
        let found = refusal_with(rt.alloc(), at, byte)?;
        assert!(rt; found == Some(OpenFault::Foreign { field }));
    }
    Ok(())
}

#[test]
fn a_platter_of_zeros_has_no_root(rt: HostRuntime) -> Result<(), Fail> {
    let mut bay = device(rt.alloc(), 0)?;
    let found = refusal(rt.alloc(), &mut bay, &[0])?;
    assert!(rt; found == Some(OpenFault::Foreign { field: 1 }));
    Ok(())
}

// The bytes of batch 1 but the last.
fn bytes_but_one(alloc: Global) -> Result<ByteList, Broken> {
    let bytes = bytes_of(alloc, &batch(alloc, 1, b"/a")?)?;
    match bytes.slice().split_last() {
        Some((_, less)) => Ok(ByteList::from_slice(alloc, less)?),
        None => Err(Broken::Refused),
    }
}

// Why the node isn't opened where the last byte of its batch is missing.
fn refusal_of_less(alloc: Global) -> Result<Option<OpenFault>, Broken> {
    let less = bytes_but_one(alloc)?;
    let mut bay = device(alloc, 0)?;
    started(alloc, &mut bay)?;
    refusal(alloc, &mut bay, less.slice())
}

#[test]
fn a_batch_with_a_byte_too_few_is_refused(rt: HostRuntime) -> Result<(), Fail> {
    let found = refusal_of_less(rt.alloc())?;
    assert!(rt; found == Some(OpenFault::Foreign { field: 8 }));
    Ok(())
}
