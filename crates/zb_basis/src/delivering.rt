ghost use Rattle.std.specs.Prelude.{◌≡◌};
ghost use Rattle.zb_basis.specs.Delivering.{stripe_of};

use zb_types::Request;

/// The stripe of the fragment that a request changes, 0 where it changes none.
pub fn stripe_of(request: &Request) -> u64
    ensures { result ≡ stripe_of request.now }
{
    match request {
        Request::Store { id, .. }
        | Request::Append { id, .. }
        | Request::Parity { id, .. }
        | Request::Delete { id } => id.stripe,
        Request::Retrieve { .. } | Request::Identify { .. } | Request::Fence { .. } => 0,
    }
}
