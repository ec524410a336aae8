use std::test::Fail;
use zb_conflict::{Decision, decide};
use zb_delta::{Body, Delta};
use zb_pointers::FileHead;
use zb_types::{Fid, LogId, Ptr};

fn ptr(offset: u32) -> Ptr {
    Ptr {
        log: LogId(1),
        stripe: 0,
        offset,
        len: 5,
    }
}

fn body(version: u64, was: Option<Ptr>) -> Body {
    Body {
        fid: Fid(1),
        version,
        block: 0,
        was,
        now: ptr(100),
    }
}

// The rows of the table, for a file of version 2 or none.
#[test]
fn the_conflict_table_row_by_row(rt: HostRuntime) -> Result<(), Fail> {
    let old = Some(ptr(0));
    let moved = Some(ptr(50));
    let there = Some(FileHead {
        version: 2,
        length: 5,
    });
    let dead = ptr(100);
    let update = Delta::Update(body(2, old));
    let early = Delta::Update(body(1, old));
    let unseen = Delta::Update(body(0, None));
    let clean = Delta::Clean(body(2, old));
    let early_clean = Delta::Clean(body(1, old));
    let rows = [
        (update, None, old, Decision::Drop { dead }),
        (update, there, old, Decision::Set),
        (
            update,
            there,
            moved,
            Decision::SetAndReject { dead: ptr(50) },
        ),
        (update, there, None, Decision::Set),
        (early, there, old, Decision::Stale { seen: 1, now: 2 }),
        (unseen, there, None, Decision::Stale { seen: 0, now: 2 }),
        (clean, there, old, Decision::Set),
        (clean, None, old, Decision::Drop { dead }),
        (clean, there, moved, Decision::Drop { dead }),
        (early_clean, there, old, Decision::Set),
    ];
    for (delta, head, table, wanted) in rows {
        assert_eq!(rt; decide(&delta, head, table), wanted);
    }
    Ok(())
}
