ghost use Rattle.std.specs.Prelude.{◌≡◌, ℕ, ◌<◌, ◌≤◌, ◌^◌, true, false, if◌then◌else◌, List, is_some, slice_get, Option, Some, None};
ghost use Rattle.zb_types.specs.declared.ids.ServerId.{ServerId};
ghost use Rattle.zb_types.specs.declared.ids.FragId.{FragId};
ghost use Rattle.zb_types.specs.declared.nodes.Class.{Class};
ghost use Rattle.zb_types.specs.declared.nodes.Class.TheVariants.{Client};
ghost use Rattle.zb_types.specs.declared.requests.Request.{Request};
ghost use Rattle.zb_types.specs.declared.requests.Request.TheVariants as ask;
ghost use Rattle.zb_types.specs.declared.requests.Response.{Response};
ghost use Rattle.zb_types.specs.declared.requests.Response.TheVariants as told;
ghost use Rattle.zb_types.specs.declared.requests.StoreFault.TheVariants as fault;
ghost use Rattle.zb_holding.specs.Holding.{Maps, is_away};
ghost use Rattle.zb_holding.specs.Carrying.{carried};
ghost use Rattle.zb_holding.specs.Rules.{Holdings, IsAnswer, IsLeft};
ghost use Rattle.zb_stripe.specs.declared.flush.Flush.{Flush};
ghost use Rattle.zb_stripe.specs.Writing.{plan_requests};
ghost use Rattle.zb_stripe.specs.Reading.{Reading, asked as asked_by, Answers};
ghost use Rattle.zb_stripe_laws.specs.ReadAtWork.{AnswersFrom};
ghost use Rattle.zb_sound.specs.LastFlush.{FindsItsPlace};
ghost use Rattle.zb_servers.specs.Serving.{MayAsk};
ghost use Rattle.zb_servers_laws.specs.Indexed.{AllFitIndex, PutsToIndex};
ghost use Rattle.zb_servers_laws.specs.Answered.{IsAnswered, IsWrite, IsClients, lacks_slot};

/// What stands fits its index: where nothing stands, and still once a request that puts a fragment to its index was
/// carried out, as each request of a plan does.
pub fn fragments_fit_index()
    ensures first { (n : ℕ) (maps : Maps) → ((server : ServerId) (id : FragId) → maps server id ≡ None) → AllFitIndex n maps }
    ensures kept { (n : ℕ) (maps : Maps) (asked : ServerId × Request)
        → PutsToIndex n asked.1 → AllFitIndex n maps → AllFitIndex n (carried maps asked) }
    ensures plan { (n f : ℕ) (out : Option ServerId) (class : Class) (flush : Flush) (i : ℕ) (asked : ServerId × Request)
        → slice_get (plan_requests n f out class flush) i ≡ Some asked → PutsToIndex n asked.1 }
{}

/// What a read asks may be asked of its servers. An answer by the rules, of a server that takes the read's generation, is
/// from the servers' maps, and is one that the read takes where what stands fits its index.
pub fn read_is_answered()
    ensures asked { (r : Reading) (asked : ServerId × Request)
        → 0 < r.servers → asked_by r ≡ Some asked → MayAsk r.servers asked }
    ensures taken { (maps : Maps) (generation : ℕ) (r : Reading) (asked : ServerId × Request) (response : Response)
        → AllFitIndex r.servers maps → asked_by r ≡ Some asked → IsAnswered maps generation asked response
        → Answers r.servers (asked_by r) response }
    ensures from { (maps : Maps) (generation : ℕ) (x z : Option ServerId) (r : Reading) (asked : ServerId × Request) (response : Response)
        → is_away x asked.0 ≡ false → asked_by r ≡ Some asked → IsAnswered maps generation asked response
        → AnswersFrom maps x z (asked_by r) response }
{}

/// The requests of a plan may be asked of servers 1 to n, and are writes of the plan's class. A write that finds its place,
/// and whose generation isn't below the fence, is answered `NoSlot` exactly where too few slots are free, and else `Done`.
/// No answer by the rules says that memory ran out, or that the server is down or blank.
pub fn write_is_answered()
    ensures asked { (n f : ℕ) (out : Option ServerId) (class : Class) (flush : Flush) (i : ℕ) (asked : ServerId × Request)
        → 0 < n → f < 2 ^ 32 → slice_get (plan_requests n f out class flush) i ≡ Some asked → MayAsk n asked }
    ensures writes { (n f : ℕ) (out : Option ServerId) (class : Class) (flush : Flush) (i : ℕ) (asked : ServerId × Request)
        → slice_get (plan_requests n f out class flush) i ≡ Some asked → IsWrite asked.1 }
    ensures clients { (n f : ℕ) (out : Option ServerId) (flush : Flush) (i : ℕ) (asked : ServerId × Request)
        → slice_get (plan_requests n f out Client flush) i ≡ Some asked → IsClients asked.1 }
    ensures answer { (has : Holdings) (generation : ℕ) (request : Request) (response : Response)
        → IsWrite request → FindsItsPlace request has.map → has.fence ≤ generation → IsAnswer has generation request response
        → response ≡ (if lacks_slot has request then told.Refused (fault.NoSlot has.free) else told.Done) }
    ensures memory { (has : Holdings) (generation : ℕ) (request : Request) → IsAnswer has generation request (told.Refused fault.NoMemory) → ⊥ }
    ensures down { (has : Holdings) (generation : ℕ) (request : Request) → IsAnswer has generation request told.Down → ⊥ }
    ensures blank { (has : Holdings) (generation : ℕ) (request : Request) → IsAnswer has generation request told.Blank → ⊥ }
{}

/// What clients ask leaves four slots free, where so many were; and then a parity that replaces another finds one.
pub fn clients_leave_slots()
    ensures stays { (has now : Holdings) (generation : ℕ) (request : Request) (response : Response)
        → IsClients request → IsAnswer has generation request response → IsLeft has request response now → 4 ≤ has.free → 4 ≤ now.free }
    ensures replaces { (has : Holdings) (id : FragId) (lengths bytes : List ℕ) (class : Class)
        → is_some (has.map id) ≡ true → 4 ≤ has.free → lacks_slot has (ask.Parity id lengths bytes class) ≡ false }
{}
