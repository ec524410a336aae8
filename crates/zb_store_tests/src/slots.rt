ghost use Rattle.std.specs.Prelude.{◌≡◌, ◌≤◌, ◌+◌, ◌^◌};

use crate::system::{PARITY, SHARE, formatted, system};
use std::alloc::Global;
use std::test::Fail;
use zb_devices::MemOutside;
use zb_outside::Bay;
use zb_slots::{
    Header, ReadFault, append, free, headers, parity_area, parity_range, share_bytes, stands_at,
    store, store_parity,
};
use zb_types::{Failed, Geometry};

// The header cell of a share that was stored with three bytes and grew to six: of each copy its gate, its turn, six zeros,
// the header and sixteen zeros.
const CELL: [u8; 128] = [
    1, 0, 0, 0, 0, 0, 0, 0, 0, 0, 0, 1, 0, 0, 0, 0, 0, 0, 0, 7, 1, 1, 0, 0, 0, 0, 0, 3, 0, 0, 0, 0,
    0, 0, 0, 0, 0, 0, 0, 0, 0, 0, 0, 0, 0, 0, 0, 0, 0, 0, 0, 0, 0, 0, 0, 0, 0, 0, 0, 0, 0, 0, 0, 0,
    1, 1, 0, 0, 0, 0, 0, 0, 0, 0, 0, 1, 0, 0, 0, 0, 0, 0, 0, 7, 1, 1, 0, 0, 0, 0, 0, 6, 0, 0, 0, 0,
    0, 0, 0, 0, 0, 0, 0, 0, 0, 0, 0, 0, 0, 0, 0, 0, 0, 0, 0, 0, 0, 0, 0, 0, 0, 0, 0, 0, 0, 0, 0, 0,
];

// Slot 1 of the platter.
const PLACE: u64 = 576;

// A share in slot 1 that was stored and grew.
fn store_share(bay: &mut MemOutside, geo: &Geometry) -> Result<(), Failed>
    requires servers { geo.now.servers ≡ 3 }
    requires fragment { geo.now.fragment ≡ 256 }
{
    store(bay, geo, 3, PLACE, SHARE, b"abc")?;
    append(bay, geo, 3, PLACE, SHARE, 3, b"def")
}

// A parity in slot 0, over shares of 258 and of 2 bytes.
fn store_its_parity(alloc: Global, bay: &mut MemOutside, geo: &Geometry) -> Result<(), Fail>
    requires servers { geo.now.servers ≡ 3 }
    requires fragment { geo.now.fragment ≡ 256 }
{
    let area = parity_area(alloc, &[258, 2], b"xyz")?;
    store_parity(bay, geo, 3, 128, PARITY, 1, area.as_slice())?;
    Ok(())
}

// A platter with both.
fn filled(alloc: Global) -> Result<MemOutside, Fail> {
    let geo = system()?;
    let mut bay = formatted(alloc)?;
    store_share(&mut bay, &geo)?;
    store_its_parity(alloc, &mut bay, &geo)?;
    Ok(bay)
}

// Whether these bytes are read at a place.
fn are_at(alloc: Global, bay: &mut MemOutside, place: u64, wanted: &[u8]) -> Result<bool, Fail>
    requires { place + 512 ≤ 2 ^ 63 }
{
    let mut bytes = vec![in alloc; 9; wanted.len().min(512)]?;
    bay.read_at(3, place, bytes.as_mut_slice())?;
    Ok(bytes.as_slice() == wanted)
}

#[test]
fn a_slot_has_its_header_then_lengths_then_bytes(rt: HostRuntime) -> Result<(), Fail> {
    let mut bay = filled(rt.alloc())?;
    let rows: [(u32, &[u8]); 4] = [
        (576, &CELL),
        (768, b"abcdef\0"),
        (256, &[0, 0, 1, 2, 0, 0, 0, 2, 0]),
        (320, b"xyz\0"),
    ];
    for (place, bytes) in rows {
        let are_there = are_at(rt.alloc(), &mut bay, u64::from(place), bytes)?;
        assert!(rt; are_there, "at {place}");
    }
    Ok(())
}

// Whether these bytes stand from the third of the share on.
fn stand_behind(bay: &mut MemOutside, geo: &Geometry, bytes: &[u8]) -> Result<bool, Failed>
    requires { geo.now.slots ≡ 8 }
{
    stands_at(bay, geo, 3, 1, 6, 2, bytes)
}

// Whether bytes 2 to 5 of the share are these.
fn are_of_share(
    alloc: Global,
    bay: &mut MemOutside,
    geo: &Geometry,
    wanted: &[u8],
) -> Result<bool, ReadFault>
    requires slots { geo.now.slots ≡ 8 }
    requires fragment { geo.now.fragment ≡ 256 }
{
    let bytes = share_bytes(alloc, bay, geo, 3, 1, 2, 3)?;
    Ok(bytes.slice() == wanted)
}

#[test]
fn a_share_is_read_and_compared(rt: HostRuntime) -> Result<(), Fail> {
    let geo = system()?;
    let mut bay = filled(rt.alloc())?;
    assert!(rt; are_of_share(rt.alloc(), &mut bay, &geo, b"cde")?);
    let rows: [(&[u8], bool); 3] = [(b"cdef", true), (b"cdxf", false), (b"cdef\0", false)];
    for (bytes, stands) in rows {
        assert!(rt; stand_behind(&mut bay, &geo, bytes)? == stands);
    }
    Ok(())
}

// Whether these bytes of the parity are read with its lengths.
fn are_of_parity(
    alloc: Global,
    bay: &mut MemOutside,
    geo: &Geometry,
    place: u32,
    wanted: &[u8],
) -> Result<bool, ReadFault>
    requires { geo.now.slots ≡ 8 }
{
    let len = wanted.len().min(256) as u32;
    let range = parity_range(alloc, bay, geo, 3, 0, 3, place, len)?;
    Ok(range.lengths.slice() == [258, 2].as_slice() && range.bytes.slice() == wanted)
}

#[test]
fn a_parity_is_read_with_its_lengths(rt: HostRuntime) -> Result<(), Fail> {
    let geo = system()?;
    let mut bay = filled(rt.alloc())?;
    let rows: [(u32, &[u8]); 2] = [(1, b"yz\0\0"), (9, b"\0\0")];
    for (place, wanted) in rows {
        assert!(rt; are_of_parity(rt.alloc(), &mut bay, &geo, place, wanted)?);
    }
    Ok(())
}

// Whether eight slots have headers, and the first two have these.
fn are_headers(
    alloc: Global,
    bay: &mut MemOutside,
    geo: &Geometry,
    wanted: &[Option<Header>],
) -> Result<bool, ReadFault> {
    let says = headers(alloc, bay, geo, 3)?;
    Ok(says.len() == 8 && says.get(..2) == Some(wanted))
}

#[test]
fn headers_are_read_and_freed(rt: HostRuntime) -> Result<(), Fail> {
    let geo = system()?;
    let mut bay = filled(rt.alloc())?;
    let parity = Header::Parity {
        id: PARITY,
        turn: 1,
        len: 3,
    };
    for second in [Header::Share { id: SHARE, len: 6 }, Header::Free] {
        let wanted = [Some(parity), Some(second)];
        assert!(rt; are_headers(rt.alloc(), &mut bay, &geo, &wanted)?);
        free(&mut bay, &geo, 3, PLACE)?;
    }
    Ok(())
}
