//! Where the bytes of a stripe lie: the server of each fragment, the length of each share, and the ranges of a pointer.
#![tactic(auto)]

mod span_list;

ghost use Rattle.std.specs.Prelude.{◌≡◌, ◌+◌, ◌-◌, ◌*◌, ◌≤◌, All};
ghost use Rattle.zb_holding.specs.Placing.{share_length, server_of};
ghost use Rattle.zb_layout.specs.Ranges.{spans_of, Covers, LiesWithin};

pub use span_list::{Span, Spans};
use zb_types::{FragId, Geometry, Ptr, ServerId};

/// The server that a fragment is placed on: one further for each log, stripe and index.
pub fn server_of(geo: &Geometry, id: FragId) -> ServerId
    ensures { result ≡ server_of geo.now.servers id }
{
    let servers = u64::from(geo.servers);
    let turn = u64::from(id.log.0) % servers + id.stripe % servers + u64::from(id.index);
    ServerId((turn % servers) as u8 + 1)
}

/// How many of the first `n` bytes of a stripe lie in share `k`, from 0.
pub fn share(geo: &Geometry, n: u32, k: u8) -> u32
    ensures { result ≡ share_length geo.now.fragment n k }
{
    let before = u64::from(k) * u64::from(geo.fragment);
    let behind = u64::from(n).saturating_sub(before);
    behind.min(u64::from(geo.fragment)) as u32
}

/// The ranges of shares in which a pointer's bytes lie, in the order of the bytes.
pub fn spans(geo: &Geometry, ptr: &Ptr) -> Spans
    requires { ptr.now.offset + ptr.now.len ≤ (geo.now.servers - 1) * geo.now.fragment }
    ensures exact { result ≡ spans_of geo.now.fragment ptr.now.offset ptr.now.len }
    ensures cover { Covers geo.now.fragment ptr.now.offset ptr.now.len result }
    ensures within { All (LiesWithin geo.now.servers geo.now.fragment) result }
{
    Spans::of(geo, ptr)
}
