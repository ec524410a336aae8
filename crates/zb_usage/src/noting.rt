ghost use Rattle.std.specs.Prelude.{◌≡◌, Some};
ghost use Rattle.zb_tables.specs.Fold.{same_place};
ghost use Rattle.zb_usage.specs.Noting.{come, gone};

use zb_delta::Delta;
use zb_types::Ptr;

// Whether the tables had this pointer.
fn is_table(table: Option<Ptr>, ptr: &Ptr) -> bool
    ensures { result ≡ same_place table (Some ptr.now) }
{
    match table {
        None => false,
        Some(had) => {
            had.log.0 == ptr.log.0
                && had.stripe == ptr.stripe
                && had.offset == ptr.offset
                && had.len == ptr.len
        }
    }
}

/// The pointer that is named from a note on, if there is one.
pub(crate) fn come(delta: &Delta) -> Option<Ptr>
    ensures { result ≡ come delta.now }
{
    match delta {
        Delta::Update(body) => Some(body.now),
        Delta::Clean(body) => Some(body.now),
        Delta::Reject { body, table } => {
            if is_table(*table, &body.now) {
                body.was
            } else {
                None
            }
        }
    }
}

/// The pointer that isn't named any longer from a note on, if there is one.
pub(crate) fn gone(delta: &Delta) -> Option<Ptr>
    ensures { result ≡ gone delta.now }
{
    match delta {
        Delta::Update(body) => body.was,
        Delta::Clean(body) => body.was,
        Delta::Reject { body, table } => {
            if is_table(*table, &body.now) {
                Some(body.now)
            } else {
                None
            }
        }
    }
}
