ghost use Rattle.std.specs.Prelude.{◌≡◌, ◌≤◌, length, take};
ghost use Rattle.zb_basis.specs.Runs.{is_alone, company, run_of};

use zb_types::{Call, MOST_KEPT};

/// A call of a client with its number, from 1.
#[derive(Drop)]
pub struct Numbered {
    pub number: u64,
    pub call: Call,
}

/// Whether a call stands alone in its batch: any but a write, a truncation and a sync.
fn is_alone(call: &Call) -> bool
    ensures { result ≡ is_alone call.now }
{
    !matches!(
        call,
        Call::Write { .. } | Call::Truncate { .. } | Call::Sync
    )
}

/// How many of the first calls stand together, at most `most`.
fn company(calls: &[Numbered], most: usize) -> usize
    ensures exact { take result calls.now ≡ company most calls.now }
    ensures within { result ≤ length calls.now }
    ensures few { result ≤ most }
{
    match calls {
        [first, rest @ ..] if most > 0 && !is_alone(&first.call) => 1 + company(rest, most - 1),
        _ => 0,
    }
}

/// How many of the first kept calls form the next batch: one that stands alone, or the longest run of one to eight
/// others.
pub fn run_length(calls: &[Numbered]) -> usize
    ensures exact { take result calls.now ≡ run_of calls.now }
    ensures within { result ≤ length calls.now }
{
    match calls {
        [first, ..] if is_alone(&first.call) => 1,
        _ => company(calls, MOST_KEPT),
    }
}
