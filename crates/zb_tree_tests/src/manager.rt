use std::alloc::Global;
use zb_batch::Batch;
use zb_manager::Manager;
use zb_types::{Geometry, Mem, NoMemory, Path, Piece};

/// The path with these bytes.
pub(crate) fn path(alloc: Global, text: &[u8]) -> Mem<Path> {
    Path::parse(alloc, text)?.ok_or(NoMemory)
}

/// The empty tables, and client 1 with its first log.
pub(crate) fn new_manager(alloc: Global) -> Mem<Manager> {
    let Ok(geo) = Geometry::new(3, 1, 1024, 64, 8) else {
        return Err(NoMemory);
    };
    let mut manager = Manager::new(alloc, &geo)?;
    manager.room(alloc)?;
    manager.attach(1);
    Ok(manager)
}

/// Commits a batch in this piece. Whether it may be, and is.
pub(crate) fn commit(
    alloc: Global,
    manager: &mut Manager,
    batch: &Batch,
    piece: Piece,
) -> Mem<bool> {
    let pieces = [piece];
    if batch.number == 0 || !batch.is_spellable() {
        return Ok(false);
    }
    batch.write(alloc)?;
    if !manager.may_commit(batch, &pieces) {
        return Ok(false);
    }
    let Ok(prepared) = manager.prepare(alloc, batch, &pieces, 1) else {
        return Ok(false);
    };
    manager.apply(prepared);
    Ok(true)
}
