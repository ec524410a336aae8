use crate::bench::{Broken, Device, Do, change, device, finds, started, tables};
use std::alloc::Global;
use std::test::Fail;
use zb_outside::Bay;
use zb_replay::ManagerNode;
use zb_types::ByteList;

// The changes, each with how many writes it makes before its last one: an entry two, since one of before the checkpoint stands
// at its place; a checkpoint one for its page, and two for the root cell.
const WRITES: [(Do, u8); 5] = [
    (Do::Commit, 2),
    (Do::Attach, 2),
    (Do::Mark, 2),
    (Do::Retire, 2),
    (Do::Checkpoint, 3),
];

// The node behind a checkpoint of its first batch.
fn begun(alloc: Global, bay: &mut Device) -> Result<ManagerNode, Broken> {
    let mut node = started(alloc, bay)?;
    node.checkpoint(alloc, bay)?;
    Ok(node)
}

// The tables before a change.
fn tables_before(alloc: Global) -> Result<ByteList, Broken> {
    let mut bay = device(alloc, 0)?;
    let node = begun(alloc, &mut bay)?;
    tables(alloc, &node)
}

// Those after it, which takes no more than this many writes and a last one.
fn tables_after_on(
    alloc: Global,
    bay: &mut Device,
    what: Do,
    writes: u8,
) -> Result<ByteList, Broken> {
    let mut node = begun(alloc, bay)?;
    bay.arm(0, u64::from(writes) + 2);
    change(alloc, bay, &mut node, what)?;
    tables(alloc, &node)
}

fn tables_after(alloc: Global, what: Do, writes: u8) -> Result<ByteList, Broken> {
    let mut bay = device(alloc, 0)?;
    tables_after_on(alloc, &mut bay, what, writes)
}

// Stops the change at the write behind so many that pass.
fn stop(alloc: Global, bay: &mut Device, what: Do, passed: u8) -> Result<(), Broken> {
    let mut node = begun(alloc, bay)?;
    bay.arm(0, u64::from(passed) + 1);
    match change(alloc, bay, &mut node, what) {
        Err(Broken::Stopped) => Ok(()),
        _ => Err(Broken::Refused),
    }
}

// The device, restarted after such a stop.
fn stopped(alloc: Global, what: Do, choice: u8, passed: u8) -> Result<Device, Broken> {
    let mut bay = device(alloc, choice)?;
    stop(alloc, &mut bay, what, passed)?;
    bay.disarm(0);
    bay.restart(0)?;
    Ok(bay)
}

// Whether the change, stopped behind so many writes, leaves these tables after each of these restarts.
fn leaves(
    alloc: Global,
    what: Do,
    choices: &[u8],
    passed: u8,
    wanted: &ByteList,
) -> Result<bool, Broken> {
    for choice in choices {
        let mut bay = stopped(alloc, what, *choice, passed)?;
        if !finds(alloc, &mut bay, None, wanted)? {
            return Ok(false);
        }
    }
    Ok(true)
}

// Whether each stop before the last write leaves the tables before the change.
fn leaves_before(alloc: Global, what: Do, writes: u8, before: &ByteList) -> Result<bool, Broken> {
    for passed in 0..writes {
        if !leaves(alloc, what, &[0, 1, 7], passed, before)? {
            return Ok(false);
        }
    }
    Ok(true)
}

// Whether each stop leaves the tables before the change, or those after it where the last write is kept.
fn leaves_either(alloc: Global, what: Do, writes: u8) -> Result<bool, Broken> {
    let before = tables_before(alloc)?;
    if !leaves_before(alloc, what, writes, &before)? {
        return Ok(false);
    }
    if !leaves(alloc, what, &[0, 7], writes, &before)? {
        return Ok(false);
    }
    let after = tables_after(alloc, what, writes)?;
    leaves(alloc, what, &[1], writes, &after)
}

#[test]
fn a_stop_leaves_the_tables_before_or_after(rt: HostRuntime) -> Result<(), Fail> {
    for (what, writes) in WRITES {
        assert!(rt; leaves_either(rt.alloc(), what, writes)?);
    }
    Ok(())
}
