ghost use Rattle.std.specs.Prelude.{◌≡◌, ℕ, ◌<◌, ◌≤◌, List, length, take};
ghost use Rattle.zb_types.specs.declared.ids.LogId.{LogId};
ghost use Rattle.zb_holding.specs.Holding.{View, StripeHolds};
ghost use Rattle.zb_fetching.specs.Bytes.{given_bytes};

/// Servers give as many bytes of a stripe as are committed. What servers of which one at most doesn't serve give of a stripe
/// that they hold up to an end are its first bytes.
pub fn contents_are_held()
    ensures long { (v : View) (log : LogId) (stripe end : ℕ) → length (given_bytes v log stripe end) ≡ end }
    ensures bytes { (v : View) (log : LogId) (stripe end : ℕ) (bytes : List ℕ)
        → 2 ≤ v.servers → 0 < v.fragment → StripeHolds v log stripe end bytes
        → given_bytes v log stripe end ≡ take end bytes }
{}
