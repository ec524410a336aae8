ghost use Rattle.std.specs.Prelude.{◌≡◌, ℕ, List, [], ◌+◌, ◌-◌, ◌*◌, ◌<◌, ◌≤◌, length, take, drop, IsSome, IfOk};
ghost use Rattle.zb_holding.specs.Holding.{StripeHolds, view_of, is_away};
ghost use Rattle.zb_stripe.specs.Reading.{asked};
ghost use Rattle.zb_plain.specs.Standing.{maps_of};
ghost use Rattle.zb_plain.specs.Answering.{MayAsk};
ghost use Rattle.zb_plain.specs.Indexed.{AllFitIndex};
ghost use Rattle.zb_fetching.specs.Feeding.{answer_unless_lost, IsRetrieve, IsFedUnlessLost};

use std::alloc::Global;
use zb_plain::PlainServers;
use zb_stripe::{Got, ReadPlan};
use zb_stripe_laws::read_gives_bytes;
use zb_types::{ByteList, Geometry, Mem, Ptr, Request, Response, ServerId};

/// Whether this is the server that doesn't serve.
fn is_lost(lost: Option<ServerId>, server: ServerId) -> bool
    ensures { result ≡ is_away lost server }
{
    match lost {
        Some(gone) => gone.0 == server.0,
        None => false,
    }
}

/// What a server answers to a retrieve, where the lost one is down.
fn answer(
    alloc: Global,
    plain: &mut PlainServers,
    lost: Option<ServerId>,
    server: ServerId,
    request: &Request,
) -> Mem<Response>
    requires may { MayAsk (length plain.old) (server, request.now) }
    ensures answer { IfOk result (λ answer. answer ≡ answer_unless_lost plain.old lost server request.now) }
    ensures same { IsRetrieve request.now → plain.new ≡ plain.old }
{
    if is_lost(lost, server) {
        return Ok(Response::Down);
    }
    plain.serve(alloc, server, request)
}

/// Asks what a read asks for.
fn ask(
    alloc: Global,
    plain: &mut PlainServers,
    lost: Option<ServerId>,
    plan: &mut ReadPlan,
) -> Mem<Got>
    requires servers { length plain.old ≡ plan.old.servers }
    requires some { 0 < plan.old.servers }
    requires fit { AllFitIndex plan.old.servers (maps_of plain.old) }
    requires stands { IsSome (asked plan.old) }
    ensures fed { IfOk result (IsFedUnlessLost (maps_of plain.old) lost plan.old plan.new) }
    ensures same { plain.new ≡ plain.old }
    ensures servers { plan.new.servers ≡ plan.old.servers }
{
    let Some((server, request)) = plan.next() else {
        return Ok(Got::More);
    };
    let answer = answer(alloc, plain, lost, server, request)?;
    plan.feed(alloc, &answer)
}

/// What reading a pointer comes to: its bytes, where its stripe is committed that far.
fn read_pointer(
    alloc: Global,
    plain: &mut PlainServers,
    lost: Option<ServerId>,
    geo: &Geometry,
    ptr: &Ptr,
) -> Mem<Got>
    requires servers { length plain.old ≡ geo.now.servers }
    requires some { 0 < ptr.now.len }
    requires room { ptr.now.offset + ptr.now.len ≤ (geo.now.servers - 1) * geo.now.fragment }
    requires fit { AllFitIndex geo.now.servers (maps_of plain.old) }
    ensures bytes { (end : ℕ) (bytes : List ℕ) → ptr.now.offset + ptr.now.len ≤ end
        → StripeHolds (view_of geo.now.servers geo.now.fragment (maps_of plain.old) lost) ptr.now.log ptr.now.stripe end bytes
        → IfOk result (λ got. got ≡ Got.Bytes (take ptr.now.len (drop ptr.now.offset bytes))) }
    ensures same { plain.new ≡ plain.old }
{
    read_gives_bytes();
    let mut plan = ReadPlan::new(alloc, geo, ptr, None)?;
    let most = (u64::from(ptr.len) + 1) * u64::from(geo.servers + 2);
    'answers: for _ in 0..most {
        match ask(alloc, plain, lost, &mut plan)? {
            Got::More => {}
            got => return Ok(got),
        }
    }
    Ok(Got::More)
}

/// What reading a pointer that may name no bytes comes to.
pub(crate) fn read_range(
    alloc: Global,
    plain: &mut PlainServers,
    lost: Option<ServerId>,
    geo: &Geometry,
    ptr: &Ptr,
) -> Mem<Got>
    requires servers { length plain.old ≡ geo.now.servers }
    requires room { ptr.now.offset + ptr.now.len ≤ (geo.now.servers - 1) * geo.now.fragment }
    requires fit { AllFitIndex geo.now.servers (maps_of plain.old) }
    ensures bytes { (end : ℕ) (bytes : List ℕ) → ptr.now.offset + ptr.now.len ≤ end
        → StripeHolds (view_of geo.now.servers geo.now.fragment (maps_of plain.old) lost) ptr.now.log ptr.now.stripe end bytes
        → IfOk result (λ got. got ≡ Got.Bytes (take ptr.now.len (drop ptr.now.offset bytes))) }
    ensures none { ptr.now.len ≡ 0 → IfOk result (λ got. got ≡ Got.Bytes []) }
    ensures same { plain.new ≡ plain.old }
{
    if ptr.len == 0 {
        return Ok(Got::Bytes(ByteList::new(alloc)?));
    }
    read_pointer(alloc, plain, lost, geo, ptr)
}
