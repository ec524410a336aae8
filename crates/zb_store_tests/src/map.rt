ghost use Rattle.std.specs.Prelude.{◌≡◌, ◌≤◌, length};

use crate::system::{PARITY, SHARE, formatted, system};
use std::alloc::Global;
use std::test::Fail;
use zb_cell::get;
use zb_devices::MemOutside;
use zb_slot_map::{
    ParitySlot, append_at, fence_at, find_fence, free_at, free_older, replace_parity_at, store_at,
    store_parity_at,
};
use zb_slots::{Header, header_at, parity_area, store_parity};
use zb_types::{Failed, Geometry, ServerId};

// A call on the map: of slot 1 for a share, of slots 0 and 1 for a parity that is replaced, and of slots 5 and 1 for one that
// stands twice.
#[derive(Clone, Copy)]
enum Call {
    Store,
    Append,
    Free,
    Parity,
    Replace,
    Newer,
    Older,
    FreeOlder,
}

fn make(bay: &mut MemOutside, geo: &Geometry, area: &[u8], call: Call) -> Result<(), Failed>
    requires servers { geo.now.servers ≡ 3 }
    requires fragment { geo.now.fragment ≡ 256 }
    requires slots { geo.now.slots ≡ 8 }
    requires lengths { 64 ≤ length area.now }
    requires room { length area.now ≤ 320 }
{
    match call {
        Call::Store => store_at(bay, geo, 3, 1, SHARE, b"abc"),
        Call::Append => append_at(bay, geo, 3, 1, SHARE, 3, b"de"),
        Call::Free => free_at(bay, geo, 3, 1),
        Call::Parity => store_parity_at(bay, geo, 3, 0, PARITY, area),
        Call::Replace => {
            let former = ParitySlot { slot: 0, turn: 0 };
            replace_parity_at(bay, geo, 3, former, 1, PARITY, area)
        }
        Call::Newer => store_parity(bay, geo, 3, 2368, PARITY, 2, area),
        Call::Older => store_parity(bay, geo, 3, 576, PARITY, 0, area),
        Call::FreeOlder => free_older(bay, geo, 3, &[5]),
    }
}

// What stands in slots 0, 1 and 5.
type Standing = [Option<Header>; 3];

fn standing(bay: &mut MemOutside, geo: &Geometry) -> Result<Standing, Failed> {
    Ok([
        header_at(bay, geo, 3, 128)?,
        header_at(bay, geo, 3, 576)?,
        header_at(bay, geo, 3, 2368)?,
    ])
}

const FREE: Option<Header> = Some(Header::Free);

fn share(len: u32) -> Option<Header> {
    Some(Header::Share { id: SHARE, len })
}

fn parity(turn: u8) -> Option<Header> {
    Some(Header::Parity {
        id: PARITY,
        turn,
        len: 3,
    })
}

fn rows() -> [(Call, Standing); 9] {
    [
        (Call::Store, [FREE, share(3), FREE]),
        (Call::Append, [FREE, share(5), FREE]),
        (Call::Free, [FREE, FREE, FREE]),
        (Call::Parity, [parity(0), FREE, FREE]),
        (Call::Replace, [FREE, parity(1), FREE]),
        (Call::Free, [FREE, FREE, FREE]),
        (Call::Newer, [FREE, FREE, parity(2)]),
        (Call::Older, [FREE, parity(0), parity(2)]),
        (Call::FreeOlder, [FREE, parity(0), FREE]),
    ]
}

#[test]
fn fragments_go_through_their_slots(rt: HostRuntime) -> Result<(), Fail> {
    let geo = system()?;
    let mut bay = formatted(rt.alloc())?;
    let area = parity_area(rt.alloc(), &[3, 2], b"xyz")?;
    for (i, (call, wanted)) in rows().iter().copied().enumerate() {
        make(&mut bay, &geo, area.as_slice(), call)?;
        assert_eq!(rt; standing(&mut bay, &geo)?, wanted, "at row {i}");
    }
    Ok(())
}

const SUPER: [u8; 40] = [
    90, 66, 82, 83, 0, 0, 0, 1, 3, 3, 0, 0, 0, 0, 1, 0, 0, 0, 0, 64, 0, 0, 0, 8, 0, 0, 0, 0, 0, 0,
    0, 2, 0, 0, 0, 0, 0, 0, 0, 0,
];

// A platter of server 3 with fence 2.
fn fenced(alloc: Global) -> Result<MemOutside, Fail> {
    let mut bay = formatted(alloc)?;
    fence_at(&mut bay, &system()?, 3, ServerId(3), 2)?;
    Ok(bay)
}

// The fences that are found for servers 3 and 2.
fn fences(bay: &mut MemOutside, geo: &Geometry) -> Result<[Option<u64>; 2], Failed> {
    Ok([
        find_fence(bay, geo, 3, ServerId(3))?,
        find_fence(bay, geo, 3, ServerId(2))?,
    ])
}

#[test]
fn the_super_cell_tells_the_sizes_and_the_fence(rt: HostRuntime) -> Result<(), Fail> {
    let mut bay = fenced(rt.alloc())?;
    assert!(rt; bay.platter(3).len() == 3712);
    assert!(rt; get(&mut bay, 3, 0) == Ok(SUPER));
    assert!(rt; fences(&mut bay, &system()?)? == [Some(2), None]);
    Ok(())
}
