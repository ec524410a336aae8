ghost use Rattle.std.specs.Prelude.{◌≡◌, IfOk, filter};
ghost use Rattle.std.specs.List.{list_any};
ghost use Rattle.zb_usage.specs.Uses.{closed, goes_on_in, is_stripe};

use std::alloc::Global;
use zb_types::{HeldUse, LogUse, Mem, NoMemory, Status};

fn is_stripe(stripe: u64, last: Option<u64>) -> bool
    ensures { result ≡ is_stripe stripe last }
{
    match last {
        None => false,
        Some(last) => last == stripe,
    }
}

// Whether a log lives, with this stripe as its last one.
fn goes_on_in(held: &HeldUse, log: &LogUse) -> bool
    ensures { result ≡ goes_on_in held.now log.now }
{
    log.live && log.log.0 == held.log.0 && is_stripe(held.stripe, log.last)
}

// The logs that live, of which each owner has one at most.
fn live_logs(alloc: Global, logs: &[LogUse]) -> Mem<Vec<LogUse>>
    ensures { IfOk result (λ live. live.items ≡ filter (λ l. l.live) logs.now) }
{
    let mut live = Vec::new(alloc);
    for log in logs {
        if log.live {
            live.push(*log)?;
        }
    }
    Ok(live)
}

// Whether one of these logs goes on in a stripe.
fn is_last(logs: &[LogUse], held: &HeldUse) -> bool
    ensures { result ≡ list_any (goes_on_in held.now) logs.now }
{
    logs.iter().any(|log| goes_on_in(held, log))
}

// The held stripes that none of these logs goes on in.
fn closed_beside(alloc: Global, held: &[HeldUse], logs: &[LogUse]) -> Mem<Vec<HeldUse>>
    ensures { IfOk result (λ stripes. stripes.items ≡ closed logs.now held.now) }
{
    let mut stripes = Vec::new(alloc);
    for stripe in held {
        if !is_last(logs, stripe) {
            stripes.push(*stripe)?;
        }
    }
    Ok(stripes)
}

/// The held stripes that no live log goes on in.
pub(crate) fn closed(alloc: Global, status: &Status) -> Mem<Vec<HeldUse>>
    ensures { IfOk result (λ stripes. stripes.items ≡ closed status.now.logs status.now.held) }
{
    let logs = live_logs(alloc, status.logs.slice())?;
    closed_beside(alloc, status.held.slice(), &logs)
}
