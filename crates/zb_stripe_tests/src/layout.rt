use std::test::Fail;
use zb_layout::{Span, server_of, share, spans};
use zb_types::{FragId, Geometry, LogId, Ptr, ServerId};

#[test]
fn bytes_go_round_three_servers(rt: HostRuntime) -> Result<(), Fail> {
    let geo = Geometry::new(3, 1, 256, 64, 8)?;
    assert_eq!(rt; [share(&geo, 300, 0), share(&geo, 300, 1)], [256, 44]);

    for (index, server) in [(0, 2), (1, 3), (2, 1)] {
        let id = FragId {
            log: LogId(1),
            stripe: 0,
            index,
        };
        assert_eq!(rt; server_of(&geo, id), ServerId(server), "fragment {index}");
    }
    Ok(())
}

#[test]
fn a_range_goes_over_the_end_of_a_share(rt: HostRuntime) -> Result<(), Fail> {
    let geo = Geometry::new(3, 1, 256, 64, 8)?;
    let ptr = Ptr {
        log: LogId(1),
        stripe: 0,
        offset: 250,
        len: 10,
    };
    let ranges = spans(&geo, &ptr);
    let first = Span {
        index: 0,
        place: 250,
        len: 6,
    };
    let second = Span {
        index: 1,
        place: 0,
        len: 4,
    };
    assert_eq!(rt; ranges.len(), 2);
    assert_eq!(rt; [ranges.get(0), ranges.get(1)], [Some(first), Some(second)]);
    Ok(())
}
