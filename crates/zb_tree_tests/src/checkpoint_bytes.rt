use crate::first_run::after_first_run;
use std::test::Fail;
use zb_manager::Manager;
use zb_types::{Geometry, LogId};

/// The checkpoint of the empty tables: next file 1, next log 1, all servers, generation 1, next entry 1, and no items.
const EMPTY: [u8; 44] = [
    0, 0, 0, 1, 0, 0, 0, 1, 0, 0, 0, 0, 0, 0, 0, 0, 0, 0, 0, 1, 0, 0, 0, 0, 0, 0, 0, 1, 0, 0, 0, 0,
    0, 0, 0, 0, 0, 0, 0, 0, 0, 0, 0, 0,
];

/// After the first run: next file 2, next log 2, all servers, generation 1, next entry 4.
const HEAD: [u8; 28] = [
    0, 0, 0, 2, 0, 0, 0, 2, 0, 0, 0, 0, 0, 0, 0, 0, 0, 0, 0, 1, 0, 0, 0, 0, 0, 0, 0, 4,
];

/// One name: `/a`, which is file 1.
const NAMES: [u8; 13] = [0, 0, 0, 1, 0, 2, 47, 97, 2, 0, 0, 0, 1];

/// File 1 at version 2 with five bytes, in block 0 at byte 177 of stripe 0 of log 1.
const FILES: [u8; 48] = [
    0, 0, 0, 1, 0, 0, 0, 1, 0, 0, 0, 0, 0, 0, 0, 2, 0, 0, 0, 5, 0, 0, 0, 1, 0, 0, 0, 0, 0, 0, 0, 1,
    0, 0, 0, 0, 0, 0, 0, 0, 0, 0, 0, 177, 0, 0, 0, 5,
];

/// Log 1 of client 1, which lives: batch 2 in stripe 0, no mark, and two replies `Done`.
const LOGS: [u8; 50] = [
    0, 0, 0, 1, 0, 0, 0, 1, 1, 1, 0, 0, 0, 0, 0, 0, 0, 0, 0, 2, 0, 0, 0, 0, 0, 0, 0, 1, 0, 0, 0, 0,
    0, 0, 0, 0, 0, 0, 0, 2, 0, 0, 0, 0, 0, 0, 0, 0, 0, 0,
];

/// Stripe 0 of log 1, committed up to byte 182, and first named by entry 2.
const HELD: [u8; 28] = [
    0, 0, 0, 1, 0, 0, 0, 1, 0, 0, 0, 0, 0, 0, 0, 0, 0, 0, 0, 182, 0, 0, 0, 0, 0, 0, 0, 2,
];

/// Whether these bytes stand at the front; what stands behind them.
fn behind<'a>(bytes: &'a [u8], front: &[u8]) -> Result<&'a [u8], Fail> {
    if bytes.len() < front.len() {
        return Err(Fail::new("too short"));
    }
    let (first, rest) = bytes.split_at(front.len());
    if first != front {
        return Err(Fail::new("other bytes"));
    }
    Ok(rest)
}

#[test]
fn the_first_checkpoint_has_its_bytes(rt: HostRuntime) -> Result<(), Fail> {
    let alloc = rt.alloc();
    let geo = Geometry::new(3, 1, 1024, 64, 8)?;
    let text = Manager::new(alloc, &geo)?.spell(alloc)?;
    let rest = behind(text.slice(), &EMPTY)?;
    if !rest.is_empty() {
        return Err(Fail::new("more bytes"));
    }
    let Some(manager) = Manager::unspell(alloc, &geo, text.slice())? else {
        return Err(Fail::new("no checkpoint"));
    };
    if manager.next_log() != 1 {
        return Err(Fail::new("the next log"));
    }
    Ok(())
}

#[test]
fn the_first_runs_tables_have_their_bytes(rt: HostRuntime) -> Result<(), Fail> {
    let alloc = rt.alloc();
    let text = after_first_run(alloc)?.spell(alloc)?;
    let rest = behind(text.slice(), &HEAD)?;
    let rest = behind(rest, &NAMES)?;
    let rest = behind(rest, &FILES)?;
    let rest = behind(rest, &LOGS)?;
    let rest = behind(rest, &HELD)?;
    if !rest.is_empty() {
        return Err(Fail::new("more bytes"));
    }
    let geo = Geometry::new(3, 1, 1024, 64, 8)?;
    let Some(manager) = Manager::unspell(alloc, &geo, text.slice())? else {
        return Err(Fail::new("no checkpoint"));
    };
    if !matches!(manager.last(LogId(1)), Some((2, [_, _]))) {
        return Err(Fail::new("the last batch"));
    }
    Ok(())
}
