use crate::system::system;
use std::test::Fail;
use zb_slots::{Header, read_header, spell_header};
use zb_types::{FragId, Geometry, LogId};

const PARITY: [u8; 40] = [
    0, 0, 0, 5, 0, 0, 0, 1, 0, 0, 0, 2, 2, 2, 1, 0, 0, 0, 1, 0, 0, 0, 0, 0, 0, 0, 0, 0, 0, 0, 0, 0,
    0, 0, 0, 0, 0, 0, 0, 0,
];

// A place of the payload, a byte that is put there, and whether a header still stands: a header is bad by its kind, index,
// turn and length.
const CHANGES: [(u8, u8, bool); 7] = [
    (12, 1, false),
    (13, 3, false),
    (14, 3, false),
    (17, 1, false),
    (14, 2, true),
    (15, 9, true),
    (39, 9, true),
];

// Whether a header still stands once this byte is put at this place, the last at most.
fn stands(geo: &Geometry, place: u8, byte: u8) -> bool {
    let mut payload = PARITY;
    payload[usize::from(place).min(39)] = byte;
    read_header(geo, &payload).is_some()
}

#[test]
fn a_header_is_spelled_and_read(rt: HostRuntime) -> Result<(), Fail> {
    let geo = system()?;
    let id = FragId {
        log: LogId(5),
        stripe: 0x1_0000_0002,
        index: 2,
    };
    let header = Header::Parity {
        id,
        turn: 1,
        len: 256,
    };
    for (header, payload) in [(header, PARITY), (Header::Free, [0; 40])] {
        assert!(rt; spell_header(&header) == payload);
        assert!(rt; read_header(&geo, &payload) == Some(header));
    }
    for (place, byte, wanted) in CHANGES {
        assert!(rt; stands(&geo, place, byte) == wanted, "at {place}");
    }
    Ok(())
}
