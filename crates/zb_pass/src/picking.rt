ghost use Rattle.std.specs.Prelude.{◌≡◌, ◌+◌, ◌-◌, ◌^◌, IfOk, filter, min};
ghost use Rattle.zb_tables.specs.Finding.{is_into};
ghost use Rattle.zb_pass.specs.Picking.{candidates, last_batch, live_of, next_batch, target_of, MayChoose};

use crate::work::{BodyList, Target};
use std::alloc::Global;
use zb_delta::Body;
use zb_types::{LogId, LogUse, Mem, NoMemory, Status};
use zb_usage::{Chooses, StripeUse, Usage};

/// The last batch of a log, 0 where there is none.
fn last_batch(log: LogId, uses: &[LogUse]) -> u64
    ensures { result ≡ last_batch log uses.now }
{
    for found in uses {
        if found.log.0 == log.0 {
            return found.batch;
        }
    }
    0
}

/// The number behind the last batch of a log.
fn next_batch(log: LogId, uses: &[LogUse]) -> u64
    ensures { result ≡ next_batch log uses.now }
{
    last_batch(log, uses).saturating_add(1)
}

/// A stripe that was picked, with the number of the next batch of this log.
pub(crate) fn target_of(log: LogId, status: &Status, chosen: &StripeUse) -> Target
    ensures { result ≡ target_of log status.now chosen.now }
{
    Target {
        log: chosen.log,
        stripe: chosen.stripe,
        number: next_batch(log, status.logs.slice()),
    }
}

/// Whether a pointer is into a stripe.
fn is_into(log: LogId, stripe: u64, body: &Body) -> bool
    ensures { result ≡ is_into log stripe body.entry.now.now }
{
    body.now.log.0 == log.0 && body.now.stripe == stripe
}

/// The pointers into a stripe.
pub(crate) fn live_of(alloc: Global, log: LogId, stripe: u64, live: &[Body]) -> Mem<BodyList>
    ensures { IfOk result (λ found. found ≡ live_of log stripe live.now) }
{
    let mut found = Vec::new(alloc);
    for body in live {
        if is_into(log, stripe, body) {
            found.push(*body)?;
        }
    }
    Ok(BodyList::of(found))
}

/// The stripes that may be cleaned.
fn candidates(alloc: Global, status: &Status, live: &[Body]) -> Mem<Vec<StripeUse>>
    ensures { IfOk result (λ list. list.items ≡ candidates status.now live.now) }
{
    let usage = Usage::scratch(alloc, status, live)?;
    usage.candidates(alloc)
}

/// The stripe that the policy chooses of those that may be cleaned, none where there are none.
pub(crate) fn choose<C: Chooses>(
    alloc: Global,
    policy: &C,
    status: &Status,
    live: &[Body],
) -> Mem<Option<StripeUse>>
    ensures { IfOk result (MayChoose status.now live.now) }
{
    let list = candidates(alloc, status, live)?;
    if list.is_empty() {
        return Ok(None);
    }
    let place = policy.choose(&list);
    Ok(Some(list[place]))
}
