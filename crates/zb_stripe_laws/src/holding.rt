ghost use Rattle.std.specs.Prelude.{◌≡◌, ◌≢◌, ℕ, ◌<◌, ◌≤◌, Bool, false, List, length, map, take, slice_index, Option, Some};
ghost use Rattle.std.specs.List.{range_with_len};
ghost use Rattle.zb_types.specs.declared.ids.LogId.{LogId};
ghost use Rattle.zb_types.specs.declared.ids.ServerId.{ServerId};
ghost use Rattle.zb_holding.specs.Fragments.{Fragment, parity_fragment};
ghost use Rattle.zb_holding.specs.Placing.{share_of};
ghost use Rattle.zb_holding.specs.Holding.{View, StripeHolds, FragmentsHold, AreBytesOfStripe};
ghost use Rattle.zb_holding.specs.Exclusive.{list_at, greatest, IsXorOf};
ghost use Rattle.zb_parity.specs.Rebuilding.{Rebuilds};
ghost use Rattle.zb_stripe_laws.specs.PartAtWork.{StandsUpTo};
ghost use Rattle.zb_stripe_laws.specs.Restoring.{cut_to, end_lengths, end_parity, lengths_in, others_of, share_or_none, with_index};

/// What a stripe holds up to its committed end is one list, which are its committed bytes.
pub fn stripe_is_one_list()
    ensures agree { (v : View) (log : LogId) (stripe end : ℕ) (one other : List ℕ)
        → 2 ≤ v.servers → 0 < v.fragment → StripeHolds v log stripe end one → StripeHolds v log stripe end other
        → take end one ≡ take end other }
    ensures one { (v : View) (log : LogId) (stripe end : ℕ) (one other : List ℕ)
        → 2 ≤ v.servers → 0 < v.fragment → AreBytesOfStripe v log stripe end one → AreBytesOfStripe v log stripe end other
        → one ≡ other }
{}

/// A stripe is judged by what is looked at alone.
pub fn judged_by_what_is_looked_at()
    ensures { (m f : ℕ) (before now : ℕ → Option Fragment) (away : ℕ → Bool) (end : ℕ) (bytes : List ℕ)
        → ((k : ℕ) → away k ≡ false → now k ≡ before k) → FragmentsHold m f before away end bytes
        → FragmentsHold m f now away end bytes }
{}

/// A stripe that is held up to an end is held up to each lower one.
pub fn lower_end_holds()
    ensures { (m f : ℕ) (stands : ℕ → Option Fragment) (away : ℕ → Bool) (low high : ℕ) (bytes : List ℕ)
        → low ≤ high → FragmentsHold m f stands away high bytes → FragmentsHold m f stands away low bytes }
{}

/// A stripe that is held up to its last byte stands up to there.
pub fn whole_stripe_stands()
    ensures { (v : View) (log : LogId) (stripe : ℕ) (bytes : List ℕ)
        → StripeHolds v log stripe (length bytes) bytes → StandsUpTo v log stripe (length bytes) }
{}

/// A stripe is held where less of it is looked at.
pub fn more_may_be_away()
    ensures { (m f : ℕ) (stands : ℕ → Option Fragment) (away more : ℕ → Bool) (end : ℕ) (bytes : List ℕ)
        → ((k : ℕ) → more k ≡ false → away k ≡ false) → FragmentsHold m f stands away end bytes
        → FragmentsHold m f stands more end bytes }
{}

/// A stripe of which one fragment at most was missing holds whole once that is restored: a share to the length that
/// the parity covers, or a parity over the committed end.
pub fn restored_holds()
    ensures share { (m f : ℕ) (stands : ℕ → Option Fragment) (away : ℕ
        → Bool) (end : ℕ) (bytes : List ℕ) (j : ℕ)
        → FragmentsHold m f stands away end bytes → ((k : ℕ) → k ≢ j → away k ≡ false) → j < m
        → FragmentsHold m f (with_index stands j (share_or_none (take (slice_index (lengths_in (stands m)) j) (share_of f bytes j)))) (λ k. false) end bytes }
    ensures parity { (m f : ℕ) (stands : ℕ → Option Fragment) (away : ℕ → Bool) (end : ℕ) (bytes : List ℕ)
        → FragmentsHold m f stands away end bytes → ((k : ℕ) → k ≢ m → away k ≡ false)
        → FragmentsHold m f (with_index stands m (end_parity m f end bytes)) (λ k. false) end bytes }
{}

/// What is rebuilt from the parity and the other shares, each cut to the length that the parity covers of it, is the
/// missing share as far as the parity covers it.
pub fn rebuilt_is_the_share()
    ensures { (m f : ℕ) (stands : ℕ → Option Fragment) (away : ℕ
        → Bool) (end : ℕ) (bytes : List ℕ) (j : ℕ) (lengths parity rebuilt : List ℕ)
        → FragmentsHold m f stands away end bytes → ((k : ℕ) → k ≢ j → away k ≡ false) → j < m
        → stands m ≡ Some (parity_fragment lengths parity) → length rebuilt ≡ slice_index lengths j
        → Rebuilds parity (others_of (cut_to stands lengths) m j) rebuilt
        → rebuilt ≡ take (slice_index lengths j) (share_of f bytes j) }
{}

/// The parity that is made of the shares that stand, each cut at the committed end, is the one over the committed end.
pub fn rebuilt_is_the_parity()
    ensures { (m f : ℕ) (stands : ℕ → Option Fragment) (away : ℕ → Bool) (end : ℕ) (bytes rebuilt : List ℕ) (shares : List (List ℕ))
        → FragmentsHold m f stands away end bytes → ((k : ℕ) → k ≢ m → away k ≡ false)
        → shares ≡ map (cut_to stands (end_lengths m f end)) (range_with_len 0 m)
        → length rebuilt ≡ greatest (map length shares) → IsXorOf (list_at shares) (length shares) rebuilt
        → Some (parity_fragment (end_lengths m f end) rebuilt) ≡ end_parity m f end bytes }
{}
