use crate::system::system;
use std::alloc::Global;
use std::test::Fail;
use zb_cell::set;
use zb_devices::MemOutside;
use zb_fragstore::{FragStore, OpenFault};
use zb_outside::Bay;
use zb_slot_map::format_at;
use zb_types::ServerId;

const SERVER: ServerId = ServerId(1);

// The payload of a header: its index, kind, turn, and the two low bytes of its length.
fn header(index: u8, kind: u8, turn: u8, length: [u8; 2]) -> [u8; 40] {
    let [high, low] = length;
    [
        0, 0, 0, 1, 0, 0, 0, 0, 0, 0, 0, 0, index, kind, turn, 0, 0, 0, high, low, 0, 0, 0, 0, 0,
        0, 0, 0, 0, 0, 0, 0, 0, 0, 0, 0, 0, 0, 0, 0,
    ]
}

const FREE: [u8; 40] = [0; 40];

// Opens a platter with these headers in its first three slots, and tells the free slots.
fn opened(alloc: Global, headers: &[[u8; 40]; 3]) -> Result<Result<u32, OpenFault>, Fail> {
    let mut bay = MemOutside::new(alloc, b"", b"", &[])?;
    format_at(&mut bay, &system()?, 1, SERVER, 1)?;
    for (slot, payload) in headers.iter().enumerate() {
        set(&mut bay, 1, 128 + 448 * slot as u64, payload)?;
    }
    Ok(FragStore::open(alloc, &mut bay, &system()?, SERVER).map(|store| store.free()))
}

// Why a platter of zeros isn't opened.
fn fault_of_zeros(alloc: Global) -> Result<Option<OpenFault>, Fail> {
    let mut bay = MemOutside::new(alloc, b"", b"", &[])?;
    bay.write_at(1, 0, &[0; 4096])?;
    Ok(FragStore::open(alloc, &mut bay, &system()?, SERVER).err())
}

fn share() -> [u8; 40] {
    header(1, 1, 0, [1, 0])
}

fn parity(turn: u8) -> [u8; 40] {
    header(2, 2, turn, [0, 9])
}

// Headers, and how many slots are free, or the first that is bad.
fn rows() -> [([[u8; 40]; 3], Result<u32, u32>); 10] {
    [
        ([FREE, FREE, FREE], Ok(8)),
        ([share(), FREE, FREE], Ok(7)),
        ([header(2, 1, 0, [0, 1]), FREE, FREE], Err(0)),
        ([share(), header(0, 3, 0, [0, 0]), FREE], Err(1)),
        ([share(), header(0, 1, 1, [0, 1]), FREE], Err(1)),
        ([header(0, 1, 0, [1, 1]), FREE, FREE], Err(0)),
        ([share(), share(), FREE], Err(1)),
        ([parity(0), parity(1), FREE], Ok(7)),
        ([parity(1), parity(1), FREE], Err(1)),
        ([parity(0), parity(1), parity(2)], Err(1)),
    ]
}

#[test]
fn a_platter_is_opened_exactly_where_no_slot_is_bad(rt: HostRuntime) -> Result<(), Fail> {
    for (i, (headers, wanted)) in rows().iter().enumerate() {
        let told = opened(rt.alloc(), headers)?;
        let wanted = wanted.map_err(|slot| OpenFault::Damaged { slot });
        assert!(rt; told == wanted, "at row {i}");
    }
    assert!(rt; fault_of_zeros(rt.alloc())? == Some(OpenFault::Blank));
    Ok(())
}
