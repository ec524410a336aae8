use crate::manager::{commit, new_manager, path};
use std::alloc::Global;
use std::test::Fail;
use zb_batch::{Batch, Op, OpList};
use zb_delta::{Body, Delta, DeltaList};
use zb_manager::Manager;
use zb_types::{Call, Fid, LogId, Mem, Piece, Ptr, Reply};

/// Where the five bytes of the first write stand.
const HELLO: Ptr = Ptr {
    log: LogId(1),
    stripe: 0,
    offset: 177,
    len: 5,
};

fn piece(offset: u32, len: u32) -> Piece {
    Piece {
        stripe: 0,
        offset,
        len,
    }
}

/// Batch 1, which creates a file.
fn creation(alloc: Global) -> Mem<Batch> {
    let mut ops = OpList::new(alloc)?;
    ops.push(Op::Name {
        call: 1,
        what: Call::Create(path(alloc, b"/a")?),
    })?;
    Ok(Batch {
        log: LogId(1),
        number: 1,
        ops,
    })
}

/// A write of five bytes to the file, made at its first version.
fn write(alloc: Global) -> Mem<Op> {
    let mut deltas = DeltaList::new(alloc)?;
    deltas.push(Delta::Update(Body {
        fid: Fid(1),
        version: 1,
        block: 0,
        was: None,
        now: HELLO,
    }))?;
    Ok(Op::Write {
        call: 2,
        fid: Fid(1),
        version: 1,
        offset: 0,
        len: 5,
        deltas,
    })
}

/// Batch 2, which writes, and syncs.
fn write_and_sync(alloc: Global) -> Mem<Batch> {
    let mut ops = OpList::new(alloc)?;
    ops.push(write(alloc)?)?;
    ops.push(Op::Sync { call: 3 })?;
    Ok(Batch {
        log: LogId(1),
        number: 2,
        ops,
    })
}

/// Whether the last batch made file 1.
fn has_made(manager: &Manager) -> bool {
    matches!(manager.last(LogId(1)), Some((1, [Reply::Made(Fid(1))])))
}

/// The file manager after the first run's two batches.
pub(crate) fn after_first_run(alloc: Global) -> Result<Manager, Fail> {
    let mut manager = new_manager(alloc)?;
    let created = commit(alloc, &mut manager, &creation(alloc)?, piece(0, 45))?;
    let written = commit(alloc, &mut manager, &write_and_sync(alloc)?, piece(45, 137))?;
    if created && written {
        return Ok(manager);
    }
    Err(Fail::new("a batch"))
}

/// Whether the last batch was the second, with these replies.
fn has_written(manager: &Manager) -> bool {
    matches!(
        manager.last(LogId(1)),
        Some((2, [Reply::Done, Reply::Done]))
    )
}

/// Whether the file has the blocks of the first write, and is at the version behind it.
fn has_hello(alloc: Global, manager: &Manager) -> Mem<bool> {
    let found = manager.lookup(alloc, Fid(1), 0, 9)?;
    let is_long = found.version == 2 && found.length == 5;
    Ok(is_long && found.blocks.slice() == [(0, HELLO)].as_slice())
}

#[test]
fn the_first_runs_batches_are_committed(rt: HostRuntime) -> Result<(), Fail> {
    let alloc = rt.alloc();
    let mut manager = new_manager(alloc)?;
    assert!(rt; commit(alloc, &mut manager, &creation(alloc)?, piece(0, 45))?);
    assert!(rt; has_made(&manager));
    assert!(rt; commit(alloc, &mut manager, &write_and_sync(alloc)?, piece(45, 137))?);
    assert!(rt; has_written(&manager));
    assert!(rt; has_hello(alloc, &manager)?);
    Ok(())
}
