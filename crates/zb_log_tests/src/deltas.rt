use std::test::Fail;
use zb_delta::{Body, Delta, DeltaList};
use zb_types::{ByteList, Fid, LogId, Ptr};

/// The update of block 0 of the first file in a run's second batch.
const FIRST_WRITE: [u8; 58] = [
    1, 0, 0, 0, 1, 0, 0, 0, 0, 0, 0, 0, 1, 0, 0, 0, 0, 0, 0, 0, 0, 0, 0, 0, 0, 0, 0, 0, 0, 0, 0, 0,
    0, 0, 0, 0, 0, 0, 0, 0, 0, 1, 0, 0, 0, 0, 0, 0, 0, 0, 0, 0, 0, 0xb1, 0, 0, 0, 5,
];

fn block_at(offset: u32) -> Ptr {
    Ptr {
        log: LogId(1),
        stripe: 0,
        offset,
        len: 5,
    }
}

fn body(was: Option<Ptr>) -> Body {
    Body {
        fid: Fid(1),
        version: 1,
        block: 0,
        was,
        now: block_at(0xb1),
    }
}

#[test]
fn the_first_write_is_spelled_and_read(rt: HostRuntime) -> Result<(), Fail> {
    let alloc = rt.alloc();
    let delta = Delta::Update(body(None));

    let mut text = ByteList::new(alloc)?;
    delta.write(alloc, &mut text)?;
    assert_eq!(rt; text.slice(), FIRST_WRITE.as_slice());
    assert_eq!(rt; Delta::read(&FIRST_WRITE), Some((delta, 58)));
    assert_eq!(rt; Delta::read(&FIRST_WRITE[..57]), None);
    Ok(())
}

#[test]
fn a_reject_is_read_with_the_pointer_of_the_tables(rt: HostRuntime) -> Result<(), Fail> {
    let alloc = rt.alloc();
    let table = Some(block_at(7));
    let delta = Delta::Reject {
        body: body(Some(block_at(0))),
        table,
    };
    let read = Delta::Reject {
        body: body(None),
        table,
    };

    let mut text = ByteList::new(alloc)?;
    delta.write(alloc, &mut text)?;
    text.push(9)?;
    assert_eq!(rt; Delta::read(text.slice()), Some((read, 58)));
    let deltas = DeltaList::from_slice(alloc, &[read])?;
    assert_eq!(rt; deltas.copy(alloc)?.slice(), [read].as_slice());
    Ok(())
}

/// One byte is changed so that no delta is left: the kind, the flag, the zeros of an absent pointer.
#[test]
fn near_misses_are_no_deltas(rt: HostRuntime) {
    for (at, byte) in [(0, 0), (0, 4), (17, 2), (18, 1), (37, 1)] {
        let mut bytes = FIRST_WRITE;
        bytes[at] = byte;
        assert!(rt; Delta::read(&bytes).is_none(), "byte {at} as {byte}");
    }
}
