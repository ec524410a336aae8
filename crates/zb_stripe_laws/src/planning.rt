ghost use Rattle.std.specs.Prelude.{◌≡◌, ℕ, ◌-◌, ◌*◌, ◌<◌, ◌≤◌, List, [], ◌∷◌, ◌++◌, All, length, slice_get, Option, Some};
ghost use Rattle.std.specs.List.{flat_map};
ghost use Rattle.zb_types.specs.declared.ids.LogId.{LogId};
ghost use Rattle.zb_types.specs.declared.ids.ServerId.{ServerId};
ghost use Rattle.zb_types.specs.declared.nodes.Class.{Class};
ghost use Rattle.zb_types.specs.declared.requests.Request.{Request};
ghost use Rattle.zb_types.specs.declared.requests.Response.TheVariants as told;
ghost use Rattle.zb_holding.specs.Holding.{Maps, View, with_maps, StripeHolds, StripeRemains, standing};
ghost use Rattle.zb_holding.specs.Carrying.{carried, after_request};
ghost use Rattle.zb_stripe.specs.declared.flush.Part.{Part};
ghost use Rattle.zb_stripe.specs.declared.flush.Flush.{Flush};
ghost use Rattle.zb_stripe.specs.Writing.{part_requests, plan_requests, IsWritable, StripesRise};
ghost use Rattle.zb_stripe.specs.Feeding.{left_after};
ghost use Rattle.zb_stripe_laws.specs.PartAtWork.{IsSpared, MayBegin, PartAtWork, StripesDiffer, HasNoEmptyShare};
ghost use Rattle.zb_stripe_laws.specs.PlanAtWork.{IsBeside, IsBesideEach, EachStandsAsIn, PlanAtWork, StoresBytes};

/// Stripes that rise differ.
pub fn rising_stripes_differ()
    ensures { (parts : List Part) → StripesRise parts → StripesDiffer parts }
{}

/// A request about another stripe, or one that changes nothing, leaves a stripe as it was: what is held of it, and what
/// remains of it.
pub fn requests_leave_other_stripes()
    ensures stands { (n : ℕ) (maps : Maps) (asked : ServerId × Request) (log : LogId) (stripe k : ℕ)
        → IsBeside asked.1 log stripe
        → standing n (carried maps asked) log stripe k ≡ standing n maps log stripe k }
    ensures holds { (v : View) (asked : ServerId × Request) (log : LogId) (stripe end : ℕ) (bytes : List ℕ)
        → IsBeside asked.1 log stripe → StripeHolds v log stripe end bytes
        → StripeHolds (after_request v asked) log stripe end bytes }
    ensures remains { (v : View) (asked : ServerId × Request) (log : LogId) (stripe end : ℕ) (bytes : List ℕ)
        → IsBeside asked.1 log stripe → StripeRemains v log stripe end bytes
        → StripeRemains (after_request v asked) log stripe end bytes }
{}

/// No share is left empty by a request that stores no empty one, and no plan has such a request.
pub fn requests_leave_no_share_empty()
    ensures each { (maps : Maps) (asked : ServerId × Request)
        → StoresBytes asked.1 → HasNoEmptyShare maps → HasNoEmptyShare (carried maps asked) }
    ensures plan { (n f : ℕ) (out : Option ServerId) (class : Class) (flush : Flush) (i : ℕ) (asked : ServerId × Request)
        → slice_get (plan_requests n f out class flush) i ≡ Some asked → StoresBytes asked.1 }
{}

/// A plan at work, answer by answer, with the requests that are left as its value: it begins with all of them, goes on as
/// the first is carried out, stays where its stripes are as before, as beside a request about another stripe, keeps what
/// is committed, and with none left each of its parts stands whole.
pub fn plan_at_work()
    ensures begins { (v : View) (out : Option ServerId) (class : Class) (flush : Flush)
        → StripesDiffer flush.parts → All (MayBegin v flush.log) flush.parts
        → PlanAtWork v out class flush (plan_requests v.servers v.fragment out class flush) }
    ensures goes_on { (v : View) (out : Option ServerId) (class : Class) (flush : Flush) (left : List (ServerId × Request)) (request : ServerId × Request)
        → slice_get left 0 ≡ Some request → PlanAtWork v out class flush left
        → PlanAtWork (after_request v request) out class flush (left_after left told.Done) }
    ensures stays { (v : View) (new : Maps) (out : Option ServerId) (class : Class) (flush : Flush) (left : List (ServerId × Request))
        → EachStandsAsIn (with_maps v new) v.maps flush.log flush.parts
        → PlanAtWork v out class flush left → PlanAtWork (with_maps v new) out class flush left }
    ensures beside { (v : View) (out : Option ServerId) (class : Class) (flush : Flush) (left : List (ServerId × Request)) (asked : ServerId × Request)
        → IsBesideEach asked.1 flush.log flush.parts
        → PlanAtWork v out class flush left → PlanAtWork (after_request v asked) out class flush left }
    ensures parts { (v : View) (out : Option ServerId) (class : Class) (flush : Flush) (left : List (ServerId × Request)) (before after : List Part) (part : Part)
        (work : PlanAtWork v out class flush left)
        → flush.parts ≡ before ++ part ∷ after
        → PartAtWork v out class flush.log part
        (length work.done - length (flat_map (part_requests v.servers v.fragment out class flush.log) before)) }
    ensures holds { (v : View) (out : Option ServerId) (class : Class) (flush : Flush) (left : List (ServerId × Request)) (before after : List Part) (part : Part) (end : ℕ)
        → PlanAtWork v out class flush left → flush.parts ≡ before ++ part ∷ after
        → IsWritable ((v.servers - 1) * v.fragment) part → IsSpared out v.away → 0 < end → end ≤ part.begin
        → StripeHolds v flush.log part.stripe end part.bytes }
    ensures ends { (v : View) (out : Option ServerId) (class : Class) (flush : Flush) (before after : List Part) (part : Part)
        → PlanAtWork v out class flush [] → flush.parts ≡ before ++ part ∷ after
        → IsWritable ((v.servers - 1) * v.fragment) part → IsSpared out v.away
        → StripeHolds v flush.log part.stripe (length part.bytes) part.bytes }
{}
