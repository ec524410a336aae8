use std::alloc::Global;
use std::test::Fail;
use zb_batch::Batch;
use zb_types::{LogId, Mem};

/// The meta part of a run's first batch, which creates `/a`.
const FIRST_CREATE: [u8; 45] = [
    0x5a, 0x42, 0x42, 0x54, 0, 0, 0, 1, 0, 0, 0, 0, 0, 0, 0, 1, 0, 0, 0, 0x2d, 0, 1, 0, 0, 0, 0, 0,
    0, 0, 0, 0, 0, 1, 0, 0, 0, 0, 0, 0, 0, 1, 0, 2, 0x2f, 0x61,
];

const RENAME: [u8; 17] = [
    4, 0, 0, 0, 0, 0, 0, 0, 2, 0, 2, 0x2f, 0x61, 0, 2, 0x2f, 0x62,
];

const SYNC: [u8; 9] = [7, 0, 0, 0, 0, 0, 0, 0, 4];

/// A write of 5 bytes to file 1 at version 1, with the count of its deltas.
const WRITE: [u8; 33] = [
    5, 0, 0, 0, 0, 0, 0, 0, 2, 0, 0, 0, 1, 0, 0, 0, 0, 0, 0, 0, 1, 0, 0, 0, 0, 0, 0, 0, 5, 0, 0, 0,
    1,
];

/// A truncation of file 1 at version 1 to no bytes, with no delta.
const CUT: [u8; 29] = [
    6, 0, 0, 0, 0, 0, 0, 0, 3, 0, 0, 0, 1, 0, 0, 0, 0, 0, 0, 0, 1, 0, 0, 0, 0, 0, 0, 0, 0,
];

/// A clean of one delta.
const CLEAN: [u8; 13] = [8, 0, 0, 0, 0, 0, 0, 0, 0, 0, 0, 0, 1];

const DELTA: [u8; 58] = [
    1, 0, 0, 0, 1, 0, 0, 0, 0, 0, 0, 0, 1, 0, 0, 0, 0, 0, 0, 0, 0, 0, 0, 0, 0, 0, 0, 0, 0, 0, 0, 0,
    0, 0, 0, 0, 0, 0, 0, 0, 0, 1, 0, 0, 0, 0, 0, 0, 0, 0, 0, 0, 0, 0xb1, 0, 0, 0, 5,
];

/// The first bytes of a meta part of so many bytes, operations and deltas, and these parts behind them.
fn joined(alloc: Global, size: u8, ops: u8, deltas: u8, parts: &[&[u8]]) -> Mem<Vec<u8>> {
    let mut bytes = Vec::from_slice(alloc, &FIRST_CREATE[..19])?;
    bytes.extend_from_slice(&[size, 0, ops, 0, 0, 0, 0, 0, deltas, 0, 0, 0, 0])?;
    for part in parts {
        bytes.extend_from_slice(part)?;
    }
    Ok(bytes)
}

/// What is read of these bytes, written again, and its length.
fn read_and_written(alloc: Global, bytes: &[u8]) -> Mem<Option<(Vec<u8>, u32)>> {
    let Some(batch) = Batch::read(alloc, bytes)? else {
        return Ok(None);
    };
    let written = batch.write(alloc)?.into_items();
    Ok(Some((written, batch.meta_len())))
}

#[test]
fn the_first_create_is_read(rt: HostRuntime) -> Result<(), Fail> {
    let batch = Batch::read(rt.alloc(), &FIRST_CREATE)?.ok_or("a batch")?;
    assert_eq!(rt; batch.log, LogId(1));
    assert_eq!(rt; batch.number, 1);
    assert_eq!(rt; batch.ops.len(), 1);
    Ok(())
}

#[test]
fn batches_are_read_and_written(rt: HostRuntime) -> Result<(), Fail> {
    let alloc = rt.alloc();
    let mut clean = DELTA;
    clean[0] = 2;
    let rows = [
        joined(alloc, 45, 1, 0, &[&FIRST_CREATE[32..]])?,
        joined(alloc, 49, 1, 0, &[&RENAME])?,
        joined(alloc, 161, 3, 1, &[&WRITE, &DELTA, &CUT, &SYNC])?,
        joined(alloc, 103, 1, 1, &[&CLEAN, &clean])?,
        joined(alloc, 104, 8, 0, &[SYNC.as_slice(); 8])?,
    ];
    for (i, bytes) in rows.iter().enumerate() {
        let (written, len) = read_and_written(alloc, bytes)?.ok_or("a batch")?;
        assert_eq!(rt; written.as_slice(), bytes.as_slice(), "row {i}");
        assert_eq!(rt; len as usize, bytes.len(), "row {i}");
    }
    Ok(())
}

/// The first create, with one byte of it changed.
#[test]
fn near_misses_are_no_batches(rt: HostRuntime) -> Result<(), Fail> {
    for (at, byte) in [
        (3, 0x32),
        (15, 0),
        (19, 0x2c),
        (21, 0),
        (21, 2),
        (23, 1),
        (27, 1),
        (31, 1),
        (32, 0),
        (32, 9),
        (32, 4),
        (42, 3),
        (43, 0x61),
        (44, 0x2f),
    ] {
        let mut bytes = FIRST_CREATE;
        if let Some(place) = bytes.get_mut(at) {
            *place = byte;
        }
        assert!(rt;
            Batch::read(rt.alloc(), &bytes)?.is_none(),
            "byte {at} as {byte}"
        );
    }
    assert!(rt; Batch::read(rt.alloc(), &FIRST_CREATE[..44])?.is_none());
    Ok(())
}

#[test]
fn operations_that_do_not_fit_are_no_batches(rt: HostRuntime) -> Result<(), Fail> {
    let alloc = rt.alloc();
    let mut other = DELTA;
    other[4] = 2;
    let mut late = DELTA;
    late[12] = 2;
    let mut clean = DELTA;
    clean[0] = 2;
    let mut called = CLEAN;
    called[8] = 1;
    let mut twice = CUT;
    twice[28] = 2;
    let rows = [
        joined(alloc, 70, 1, 0, &[&CUT, &SYNC])?,
        joined(alloc, 113, 9, 0, &[SYNC.as_slice(); 9])?,
        joined(alloc, 177, 1, 2, &[&twice, &DELTA, &DELTA])?,
        joined(alloc, 58, 2, 0, &[&RENAME, &SYNC])?,
        joined(alloc, 123, 1, 1, &[&WRITE, &other])?,
        joined(alloc, 123, 1, 1, &[&WRITE, &late])?,
        joined(alloc, 103, 1, 1, &[&CLEAN, &DELTA])?,
        joined(alloc, 103, 1, 1, &[&called, &clean])?,
    ];
    for (i, bytes) in rows.iter().enumerate() {
        assert!(rt; Batch::read(alloc, bytes)?.is_none(), "row {i}");
    }
    Ok(())
}
