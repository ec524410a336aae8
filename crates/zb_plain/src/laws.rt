ghost use Rattle.std.specs.Prelude.{◌≡◌, ℕ, suc, ◌<◌, ◌^◌, true, false, List, [], ◌∷◌, ◌++◌, All, take, slice_get, replicate, Option, Some, None};
ghost use Rattle.zb_types.specs.declared.ids.ServerId.{ServerId};
ghost use Rattle.zb_types.specs.declared.ids.FragId.{FragId};
ghost use Rattle.zb_types.specs.declared.nodes.Class.{Class};
ghost use Rattle.zb_types.specs.declared.requests.Request.{Request};
ghost use Rattle.zb_types.specs.declared.requests.Response.{Response};
ghost use Rattle.zb_types.specs.declared.requests.Response.TheVariants as told;
ghost use Rattle.zb_holding.specs.Holding.{Maps, View, is_away};
ghost use Rattle.zb_holding.specs.Carrying.{carried, carried_all};
ghost use Rattle.zb_stripe.specs.declared.flush.Flush.{Flush};
ghost use Rattle.zb_stripe.specs.Writing.{plan_requests};
ghost use Rattle.zb_stripe.specs.Reading.{Reading, asked as asked_by, fed, answered, is_more, Answers};
ghost use Rattle.zb_stripe_laws.specs.PartAtWork.{MayBegin, StripesDiffer};
ghost use Rattle.zb_stripe_laws.specs.ReadAtWork.{AllAnswer, AnswersFrom};
ghost use Rattle.zb_plain.specs.Standing.{Entries, entries_of, maps_of};
ghost use Rattle.zb_plain.specs.Answering.{answer_of, MayAsk};
ghost use Rattle.zb_plain.specs.Indexed.{AllFitIndex};
ghost use Rattle.zb_plain.specs.Leading.{LeadOn};

/// A plan's requests may be asked of servers 1 to n. Where each part may begin, each is answered `Done` in its turn,
/// and with each of them the servers keep what the plan's requests so far leave.
pub fn plan_is_carried_out()
    ensures asked { (n f : ℕ) (out : Option ServerId) (class : Class) (flush : Flush) (i : ℕ)
        (asked : ServerId × Request)
        → 0 < n → f < 2 ^ 32 → slice_get (plan_requests n f out class flush) i ≡ Some asked → MayAsk n asked }
    ensures done { (v : View) (servers : List Entries) (out : Option ServerId) (class : Class) (flush : Flush) (i : ℕ)
        (asked : ServerId × Request)
        → StripesDiffer flush.parts → All (MayBegin v flush.log) flush.parts
        → slice_get (plan_requests v.servers v.fragment out class flush) i ≡ Some asked → is_away v.away asked.0 ≡ false
        → maps_of servers ≡ carried_all v.maps (take i (plan_requests v.servers v.fragment out class flush))
        → answer_of (entries_of servers asked.0) asked.1 ≡ told.Done }
    ensures next { (servers new : List Entries) (maps : Maps) (plan : List (ServerId × Request))
        (i : ℕ) (asked : ServerId × Request)
        → slice_get plan i ≡ Some asked → maps_of servers ≡ carried_all maps (take i plan)
        → maps_of new ≡ carried (maps_of servers) asked → maps_of new ≡ carried_all maps (take (suc i) plan) }
{}

/// Nothing stands on servers that keep nothing. What stands fits its index then, and still does with each request
/// of a plan.
pub fn fragments_fit_index()
    ensures nothing { (count : ℕ) (server : ServerId) (id : FragId)
        → maps_of (replicate count []) server id ≡ None }
    ensures first { (n count : ℕ) → AllFitIndex n (maps_of (replicate count [])) }
    ensures kept { (n f : ℕ) (maps : Maps) (out : Option ServerId) (class : Class) (flush : Flush) (i : ℕ)
        → AllFitIndex n maps → AllFitIndex n (carried_all maps (take i (plan_requests n f out class flush))) }
    ensures whole { (n f : ℕ) (maps : Maps) (out : Option ServerId) (class : Class) (flush : Flush)
        → AllFitIndex n maps → AllFitIndex n (carried_all maps (plan_requests n f out class flush)) }
{}

/// A read's requests may be asked of its servers. An answer is from the servers' maps, and one that a read takes
/// where what stands fits its index. Behind answers that lead a read on, one more leads it on or ends it.
pub fn read_is_answered()
    ensures asked { (r : Reading) (asked : ServerId × Request)
        → 0 < r.servers → asked_by r ≡ Some asked → MayAsk r.servers asked }
    ensures taken { (servers : List Entries) (r : Reading) (asked : ServerId × Request)
        → AllFitIndex r.servers (maps_of servers) → asked_by r ≡ Some asked
        → Answers r.servers (asked_by r) (answer_of (entries_of servers asked.0) asked.1) }
    ensures from { (servers : List Entries) (x z : Option ServerId) (r : Reading) (asked : ServerId × Request)
        → is_away x asked.0 ≡ false → asked_by r ≡ Some asked
        → AnswersFrom (maps_of servers) x z (asked_by r) (answer_of (entries_of servers asked.0) asked.1) }
    ensures more { (maps : Maps) (x z : Option ServerId) (first last : Reading)
        (answers : List Response) (answer : Response)
        → AllAnswer maps x z first answers → LeadOn first answers last
        → AnswersFrom maps x z (asked_by last) answer → AllAnswer maps x z first (answers ++ answer ∷ []) }
    ensures leads_on { (first last : Reading) (answers : List Response) (answer : Response)
        → LeadOn first answers last → is_more (fed last answer).1 ≡ true
        → LeadOn first (answers ++ answer ∷ []) (fed last answer).0 }
    ensures ends { (first last : Reading) (answers : List Response) (answer : Response)
        → LeadOn first answers last → is_more (fed last answer).1 ≡ false
        → answered first (answers ++ answer ∷ []) ≡ Some (fed last answer).1 }
    ensures goes_on { (first last : Reading) (answers : List Response)
        → LeadOn first answers last → answered first answers ≡ None }
{}
