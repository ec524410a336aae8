ghost use Rattle.std.specs.Prelude.{◌≡◌};

use std::alloc::Global;
use std::test::Fail;
use zb_stripe::{Fed, Fresh, FreshFlush, FreshList, Part, WritePlan};
use zb_types::{ByteList, Class, Geometry, LogId, Mem, Response, ServerId, StoreFault};

/// Writes 10 bytes behind the first 250 of a stripe with fragments of 256 bytes.
fn plan(alloc: Global, geo: &Geometry, out: Option<ServerId>) -> Mem<WritePlan>
    requires servers { geo.now.servers ≡ 3 }
    requires fragment { geo.now.fragment ≡ 256 }
{
    let part = Part {
        stripe: 0,
        begin: 250,
        bytes: ByteList::of(vec![in alloc; 7u8; 260]?),
    };
    let mut parts = FreshList::new(alloc)?;
    parts.push(Fresh::of(alloc, geo, &part)?)?;
    let fresh = FreshFlush {
        log: LogId(1),
        parts,
    };
    WritePlan::new(alloc, geo, &fresh, out, Class::Client)
}

/// Feeds one answer, and gives the server that was asked with what the answer comes to.
fn step(plan: &mut WritePlan, response: &Response) -> Option<(u8, Fed)> {
    let server = match plan.next() {
        Some((server, _)) => server.0,
        None => return None,
    };
    Some((server, plan.feed(response)))
}

#[test]
fn data_comes_before_parity(rt: HostRuntime) -> Result<(), Fail> {
    let geo = Geometry::new(3, 1, 256, 64, 8)?;
    let mut plan = plan(rt.alloc(), &geo, None)?;
    for (server, fed) in [(2, Fed::More), (3, Fed::More), (1, Fed::Done)] {
        assert_eq!(rt; step(&mut plan, &Response::Done), Some((server, fed)));
    }
    assert_eq!(rt; step(&mut plan, &Response::Done), None);
    Ok(())
}

#[test]
fn a_server_is_left_away(rt: HostRuntime) -> Result<(), Fail> {
    let geo = Geometry::new(3, 1, 256, 64, 8)?;
    let mut plan = plan(rt.alloc(), &geo, Some(ServerId(2)))?;
    let old = Response::Refused(StoreFault::OldGeneration { now: 5 });
    assert_eq!(rt; step(&mut plan, &old), Some((3, Fed::Old { now: 5 })));
    let down = Fed::Down {
        server: ServerId(3),
    };
    assert_eq!(rt; step(&mut plan, &Response::Blank), Some((3, down)));
    Ok(())
}
