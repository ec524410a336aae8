ghost use Rattle.std.specs.Prelude.{◌≡◌, ◌≢◌, ◌⊎◌, ℕ, suc, ◌-◌, ◌*◌, ◌<◌, ◌≤◌, Bool, false, List, ◌∷◌, ◌++◌, length, take, slice_get, Option, Some};
ghost use Rattle.std.specs.List.{flat_map};
ghost use Rattle.zb_types.specs.declared.ids.LogId.{LogId};
ghost use Rattle.zb_types.specs.declared.ids.ServerId.{ServerId};
ghost use Rattle.zb_types.specs.declared.nodes.Class.{Class};
ghost use Rattle.zb_types.specs.declared.requests.Request.{Request};
ghost use Rattle.zb_holding.specs.Fragments.{Fragment};
ghost use Rattle.zb_holding.specs.Holding.{Maps, View, with_maps, StripeHolds, FragmentsHold, standing, away_at};
ghost use Rattle.zb_holding.specs.Carrying.{carried_all, after_request, after_requests};
ghost use Rattle.zb_stripe.specs.declared.flush.Part.{Part};
ghost use Rattle.zb_stripe.specs.declared.flush.Flush.{Flush};
ghost use Rattle.zb_stripe.specs.Writing.{part_requests, plan_requests, IsWritable};
ghost use Rattle.zb_stripe_laws.specs.PartAtWork.{
  IsSpared,
  StandsUpTo,
  IsUnwritten,
  StandsAsIn,
  StripeAtWork,
  MayBegin,
  PartAtWork,
  AreElsewhere,
  StripesDiffer,
  HasNoEmptyShare,
};

/// Carrying out a part's requests keeps what its stripe holds at each of them, and adds the part's bytes in the end.
pub fn part_keeps_stripe()
    ensures each { (v : View) (out : Option ServerId) (class : Class) (log : LogId) (part : Part) (end : ℕ)
        → IsWritable ((v.servers - 1) * v.fragment) part → end ≤ part.begin → IsSpared out v.away
        → StripeHolds v log part.stripe end (take part.begin part.bytes)
        → StandsUpTo v log part.stripe part.begin
        → (i : ℕ)
        → StripeHolds (after_requests v (take i (part_requests v.servers v.fragment out class log part))) log part.stripe end part.bytes }
    ensures whole { (v : View) (out : Option ServerId) (class : Class) (log : LogId) (part : Part) (end : ℕ)
        → IsWritable ((v.servers - 1) * v.fragment) part → end ≤ part.begin → IsSpared out v.away
        → StripeHolds v log part.stripe end (take part.begin part.bytes)
        → StandsUpTo v log part.stripe part.begin
        → StripeHolds (after_requests v (part_requests v.servers v.fragment out class log part)) log part.stripe (length part.bytes) part.bytes }
    ensures fresh { (v : View) (out : Option ServerId) (class : Class) (log : LogId) (part : Part)
        → IsWritable ((v.servers - 1) * v.fragment) part → part.begin ≡ 0 → IsSpared out v.away → IsUnwritten v log part.stripe
        → StripeHolds (after_requests v (part_requests v.servers v.fragment out class log part)) log part.stripe (length part.bytes) part.bytes }
{}

/// A plan of several parts, whose stripes differ, keeps what the stripe of each part holds at each of its requests, adds
/// each part's bytes in the end, leaves each other stripe as it was, and leaves no share empty.
pub fn plan_keeps_stripes()
    ensures work { (v : View) (out : Option ServerId) (class : Class) (flush : Flush) (before after : List Part) (part : Part)
        → flush.parts ≡ before ++ part ∷ after → StripesDiffer flush.parts
        → MayBegin v flush.log part
        → (i : ℕ)
        → PartAtWork (after_requests v (take i (plan_requests v.servers v.fragment out class flush))) out class flush.log part
        (i - length (flat_map (part_requests v.servers v.fragment out class flush.log) before)) }
    ensures each { (v : View) (out : Option ServerId) (class : Class) (flush : Flush) (before after : List Part) (part : Part) (end : ℕ)
        → flush.parts ≡ before ++ part ∷ after → StripesDiffer flush.parts → IsWritable ((v.servers - 1) * v.fragment) part
        → end ≤ part.begin → IsSpared out v.away
        → StripeHolds v flush.log part.stripe end (take part.begin part.bytes)
        → StandsUpTo v flush.log part.stripe part.begin
        → (i : ℕ)
        → StripeHolds (after_requests v (take i (plan_requests v.servers v.fragment out class flush))) flush.log part.stripe end part.bytes }
    ensures whole { (v : View) (out : Option ServerId) (class : Class) (flush : Flush) (before after : List Part) (part : Part)
        → flush.parts ≡ before ++ part ∷ after → StripesDiffer flush.parts → IsWritable ((v.servers - 1) * v.fragment) part
        → IsSpared out v.away → MayBegin v flush.log part
        → StripeHolds (after_requests v (plan_requests v.servers v.fragment out class flush)) flush.log part.stripe (length part.bytes) part.bytes }
    ensures others { (n f : ℕ) (maps : Maps) (out : Option ServerId) (class : Class) (flush : Flush) (log : LogId) (stripe i k : ℕ)
        → (log.0 ≢ flush.log.0) ⊎ AreElsewhere stripe flush.parts
        → standing n (carried_all maps (take i (plan_requests n f out class flush))) log stripe k
        ≡ standing n maps log stripe k }
    ensures none_empty { (n f : ℕ) (maps : Maps) (out : Option ServerId) (class : Class) (flush : Flush) (i : ℕ)
        → HasNoEmptyShare maps → HasNoEmptyShare (carried_all maps (take i (plan_requests n f out class flush))) }
{}

/// A part at work, request by request: it begins, goes on with each of its requests, stays where its stripe is as before,
/// keeps what is committed at each of them, and stands whole after the last.
pub fn part_at_work()
    ensures begins { (v : View) (out : Option ServerId) (class : Class) (log : LogId) (part : Part)
        → MayBegin v log part → PartAtWork v out class log part 0 }
    ensures goes_on { (v : View) (out : Option ServerId) (class : Class) (log : LogId) (part : Part) (i : ℕ) (request : ServerId × Request)
        → slice_get (part_requests v.servers v.fragment out class log part) i ≡ Some request
        → PartAtWork v out class log part i
        → PartAtWork (after_request v request) out class log part (suc i) }
    ensures stays { (v : View) (new : Maps) (out : Option ServerId) (class : Class) (log : LogId) (part : Part) (i : ℕ)
        → StandsAsIn (with_maps v new) v.maps log part.stripe
        → PartAtWork v out class log part i → PartAtWork (with_maps v new) out class log part i }
    ensures between { (v : View) (out : Option ServerId) (class : Class) (log : LogId) (part : Part) (i : ℕ)
        (work : PartAtWork v out class log part i)
        → IsWritable ((v.servers - 1) * v.fragment) part → IsSpared out v.away → i < length (part_requests v.servers v.fragment out class log part)
        → (j : ℕ) × (j ≤ v.servers - 1)
        × StripeAtWork v.fragment part.bytes (away_at v.servers v.away log part.stripe) (standing v.servers work.start log part.stripe) (standing v.servers v.maps log part.stripe) j }
    ensures holds { (v : View) (out : Option ServerId) (class : Class) (log : LogId) (part : Part) (end i : ℕ)
        → IsWritable ((v.servers - 1) * v.fragment) part → IsSpared out v.away → 0 < end → end ≤ part.begin
        → PartAtWork v out class log part i → StripeHolds v log part.stripe end part.bytes }
    ensures ends { (v : View) (out : Option ServerId) (class : Class) (log : LogId) (part : Part) (i : ℕ)
        → IsWritable ((v.servers - 1) * v.fragment) part → IsSpared out v.away → length (part_requests v.servers v.fragment out class log part) ≤ i
        → PartAtWork v out class log part i
        → StripeHolds v log part.stripe (length part.bytes) part.bytes }
{}

/// While the shares of a stripe become whole, one behind the other, it holds what it held.
pub fn stripe_at_work_holds()
    ensures { (m f : ℕ) (bytes : List ℕ) (begin end j : ℕ) (away : ℕ → Bool) (old new : ℕ → Option Fragment)
        → length bytes ≤ m * f → begin ≤ length bytes → end ≤ begin → j ≤ m
        → StripeAtWork f bytes away old new j
        → FragmentsHold m f old away end (take begin bytes) → FragmentsHold m f new away end bytes }
{}
