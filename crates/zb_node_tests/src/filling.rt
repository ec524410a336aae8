use crate::bench::{Broken, Device, device, finds, mark, started, tables};
use std::alloc::Global;
use std::test::Fail;
use zb_replay::ManagerNode;
use zb_types::ByteList;

// Marks the members so often, each time with the next generation.
fn mark_all(
    alloc: Global,
    bay: &mut Device,
    node: &mut ManagerNode,
    count: u32,
) -> Result<(), Broken> {
    for i in 0..count {
        mark(alloc, bay, node, u64::from(i) + 2)?;
    }
    Ok(())
}

// The tables that a node has after so many marks.
fn marked(alloc: Global, bay: &mut Device, count: u32) -> Result<ByteList, Broken> {
    let mut node = started(alloc, bay)?;
    mark_all(alloc, bay, &mut node, count)?;
    tables(alloc, &node)
}

// Whether the node that is opened after so many marks has the tables of the one that was left.
fn is_found(alloc: Global, count: u32) -> Result<bool, Broken> {
    let mut bay = device(alloc, 0)?;
    let left = marked(alloc, &mut bay, count)?;
    finds(alloc, &mut bay, None, &left)
}

// A journal has places for 2,047 such entries.
#[test]
fn a_journal_fills_and_is_cut_twice(rt: HostRuntime) -> Result<(), Fail> {
    assert!(rt; is_found(rt.alloc(), 4_200)?);
    Ok(())
}
