use crate::system::{PARITY, SHARE};
use std::alloc::Global;
use std::test::Fail;
use zb_index::{Index, IndexFault, Renewed, Spot};
use zb_slots::Header;
use zb_types::{FragId, LogId, Mem};

const LATER: FragId = FragId {
    log: LogId(1),
    stripe: 8,
    index: 0,
};

/// A parity's header with this turn.
fn parity(turn: u8) -> Option<Header> {
    Some(Header::Parity {
        id: PARITY,
        turn,
        len: 9,
    })
}

const FREE: Option<Header> = Some(Header::Free);

/// A share's header.
const HELD: Option<Header> = Some(Header::Share { id: SHARE, len: 5 });

/// Where the parity stands, the first slot of an older one, and how many slots are free.
type Standing = (Option<u32>, Option<u32>, u32);

/// Headers, and what is built of them, or the first bad slot.
type Row = ([Option<Header>; 4], Result<Standing, u32>);

fn build_rows() -> [Row; 9] {
    [
        ([FREE, HELD, FREE, FREE], Ok((None, None, 3))),
        (
            [parity(0), HELD, FREE, parity(1)],
            Ok((Some(3), Some(0), 2)),
        ),
        (
            [parity(1), HELD, FREE, parity(0)],
            Ok((Some(0), Some(3), 2)),
        ),
        (
            [parity(0), parity(2), FREE, HELD],
            Ok((Some(0), Some(1), 2)),
        ),
        ([FREE, None, HELD, None], Err(1)),
        ([HELD, FREE, HELD, None], Err(2)),
        ([parity(1), FREE, parity(1), FREE], Err(2)),
        ([parity(0), parity(1), parity(2), FREE], Err(1)),
        ([parity(0), HELD, parity(1), parity(2)], Err(2)),
    ]
}

/// What is built of these headers.
fn outcome(alloc: Global, headers: &[Option<Header>; 4]) -> Result<Standing, IndexFault> {
    let built = Index::build(alloc, headers)?;
    let stands = built.index.find(PARITY).map(|spot| spot.slot);
    Ok((stands, built.older.get(0).copied(), built.index.free()))
}

#[test]
fn an_index_is_built_or_names_the_first_bad_slot(rt: HostRuntime) {
    for (headers, wanted) in build_rows() {
        let told = outcome(rt.alloc(), &headers);
        assert_eq!(rt; told, wanted.map_err(|slot| IndexFault::Bad { slot }));
    }
}

/// Adds a fragment where it isn't held, and grows it. Tells its slot.
fn add_and_grow(index: &mut Index) -> Mem<Option<u32>> {
    let mut slot = None;
    if index.find(SHARE).is_none() {
        slot = index.add(SHARE, 5)?;
    }
    if index.find(SHARE).is_some() {
        index.grow(SHARE, 8);
    }
    Ok(slot)
}

/// Where a fragment stood that is removed, as the index finds it and as the removal tells it, and how many slots are free.
fn removed(index: &mut Index) -> (Option<Spot>, Option<Spot>, u32) {
    let found = index.find(SHARE);
    let told = index.remove(SHARE);
    (found, told, index.free())
}

#[test]
fn a_fragment_is_added_grown_and_removed(rt: HostRuntime) -> Result<(), Fail> {
    let mut index = Index::empty(rt.alloc(), 2)?;
    assert!(rt; index.free() == 2);
    assert!(rt; add_and_grow(&mut index)? == Some(0));
    let spot = Some(Spot {
        slot: 0,
        turn: 0,
        len: 8,
    });
    assert!(rt; removed(&mut index) == (spot, spot, 2));
    assert!(rt; removed(&mut index) == (None, None, 2));
    Ok(())
}

/// Renews a fragment that is held.
fn renew(index: &mut Index, id: FragId) -> Option<Renewed> {
    index.find(id)?;
    index.renew(id, 4)
}

/// What a renewed parity leaves, and where it stands then.
fn renewed_parity(alloc: Global) -> Result<(Option<Renewed>, Option<Spot>), IndexFault> {
    let mut built = Index::build(alloc, &[parity(2), HELD, FREE, FREE])?;
    let renewed = renew(&mut built.index, PARITY);
    Ok((renewed, built.index.find(PARITY)))
}

#[test]
fn a_parity_is_renewed_in_the_least_free_slot(rt: HostRuntime) {
    let former = Spot {
        slot: 0,
        turn: 2,
        len: 9,
    };
    let next = Spot {
        slot: 2,
        turn: 0,
        len: 4,
    };
    let renewed = Some(Renewed { former, slot: 2 });
    assert_eq!(rt; renewed_parity(rt.alloc()), Ok((renewed, Some(next))));
}

/// An index of three slots with three names.
fn named(alloc: Global) -> Result<Index, Fail> {
    let mut index = Index::empty(alloc, 3)?;
    for id in [LATER, PARITY, SHARE] {
        if index.find(id).is_none() {
            index.add(id, 1)?;
        }
    }
    Ok(index)
}

fn has_names(index: &Index, alloc: Global, after: Option<FragId>, wanted: &[FragId]) -> Mem<bool> {
    let names = index.names_above(alloc, after)?;
    Ok(names.slice() == wanted)
}

#[test]
fn names_are_listed_above_another(rt: HostRuntime) -> Result<(), Fail> {
    let index = named(rt.alloc())?;
    let names = [PARITY, LATER];
    assert!(rt; has_names(&index, rt.alloc(), Some(SHARE), &names)?);
    Ok(())
}
