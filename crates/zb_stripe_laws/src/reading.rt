ghost use Rattle.std.specs.Prelude.{◌≡◌, ℕ, ◌+◌, ◌*◌, ◌<◌, ◌≤◌, List, length, take, drop, true, Option, Some, IfSome, IsSome};
ghost use Rattle.zb_types.specs.declared.ids.ServerId.{ServerId};
ghost use Rattle.zb_types.specs.declared.ids.Ptr.{Ptr};
ghost use Rattle.zb_types.specs.declared.requests.Request.{Request};
ghost use Rattle.zb_types.specs.declared.requests.Response.{Response};
ghost use Rattle.zb_holding.specs.Holding.{Maps, View, view_of, StripeHolds, StripeRemains, is_away, away_at};
ghost use Rattle.zb_holding.specs.Carrying.{carried};
ghost use Rattle.zb_stripe.specs.Reading.{Reading, start, server_at, is_lost, asked, fed, answered, Answers};
ghost use Rattle.zb_stripe_laws.specs.ReadAtWork.{
  ReadAtWork,
  StillGrow,
  LetsRead,
  WasLooked,
  TellsOfFragment,
  IsOutOf,
  AllAnswer,
  MayTell,
  LeadsTo,
  AsksOther,
};

use zb_stripe::Got;

/// Where one server at most is left away or down, and the others answer from maps that hold the stripe, a read gives the
/// stripe's bytes, after a bounded number of answers.
pub fn read_gives_bytes()
    ensures right { (v : View) (z out : Option ServerId) (ptr : Ptr) (end : ℕ) (bytes : List ℕ) (responses : List Response)
        → 2 ≤ v.servers → 0 < v.fragment → 0 < ptr.len → ptr.offset + ptr.len ≤ end → IsOutOf out z
        → StripeHolds v ptr.log ptr.stripe end bytes
        → AllAnswer v.maps v.away z (start v.servers v.fragment ptr out) responses
        → IfSome (answered (start v.servers v.fragment ptr out) responses) (λ got. got
        ≡ Got.Bytes (take ptr.len (drop ptr.offset bytes))) }
    ensures ends { (v : View) (z out : Option ServerId) (ptr : Ptr) (end : ℕ) (bytes : List ℕ) (responses : List Response)
        → 2 ≤ v.servers → 0 < v.fragment → 0 < ptr.len → ptr.offset + ptr.len ≤ end → IsOutOf out z
        → StripeHolds v ptr.log ptr.stripe end bytes
        → AllAnswer v.maps v.away z (start v.servers v.fragment ptr out) responses
        → (ptr.len + 1) * (v.servers + 2) ≤ length responses → IsSome (answered (start v.servers v.fragment ptr out) responses) }
{}

/// A read while others write, answer by answer: it begins at work over what remains of its stripe, and stays so over maps
/// with the same committed bytes whose shares are gone, grow or are put back, as beside any request but one that puts
/// another fragment in the place of a share. An answer from the maps of now may be fed, and leads it on, or to an end that
/// is right; where no other share was asked for, the parity is seen in these maps. A share of the server that wasn't looked
/// at then isn't asked for where that server is lost. The read is gone only where the fragment that is asked for isn't
/// there: of a stripe that is held, another share than the range's own.
pub fn read_goes_on()
    ensures begins { (v : View) (out : Option ServerId) (ptr : Ptr) (end : ℕ) (bytes : List ℕ)
        → 2 ≤ v.servers → 0 < v.fragment → 0 < ptr.len → ptr.offset + ptr.len ≤ end
        → StripeRemains v ptr.log ptr.stripe end bytes
        → ReadAtWork v.maps v.maps v.away end bytes (start v.servers v.fragment ptr out) }
    ensures first { (n f : ℕ) (ptr : Ptr) (out : Option ServerId) (k : ℕ)
        → k < n → is_lost (start n f ptr out) k ≡ is_away out (server_at (start n f ptr out) k) }
    ensures stays { (now new seen : Maps) (y : Option ServerId) (end : ℕ) (bytes other : List ℕ) (r : Reading)
        → ReadAtWork now seen y end bytes r
        → 2 ≤ r.servers → 0 < r.fragment → r.ptr.offset + r.ptr.len ≤ end → take end bytes ≡ take end other
        → StillGrow r.servers r.ptr now new seen y r.phase
        → ReadAtWork new seen y end other r }
    ensures beside { (now seen : Maps) (y : Option ServerId) (end : ℕ) (bytes : List ℕ) (r : Reading) (asked : ServerId × Request)
        → 2 ≤ r.servers → 0 < r.fragment → r.ptr.offset + r.ptr.len ≤ end
        → LetsRead r asked.1 → ReadAtWork now seen y end bytes r → ReadAtWork (carried now asked) seen y end bytes r }
    ensures fits { (now seen : Maps) (x y : Option ServerId) (end : ℕ) (bytes : List ℕ) (r : Reading) (one : ServerId × Request) (response : Response)
        → ReadAtWork now seen y end bytes r
        → 2 ≤ r.servers → 0 < r.fragment → r.ptr.offset + r.ptr.len ≤ end
        → StripeRemains (view_of r.servers r.fragment now x) r.ptr.log r.ptr.stripe end bytes
        → asked r ≡ Some one → MayTell now x (asked r) response
        → Answers r.servers (asked r) response }
    ensures looked { (now seen : Maps) (y : Option ServerId) (end : ℕ) (bytes : List ℕ) (r : Reading)
        → ReadAtWork now seen y end bytes r
        → 2 ≤ r.servers → 0 < r.fragment → r.ptr.offset + r.ptr.len ≤ end
        → ((k : ℕ) → k < r.servers → away_at r.servers y r.ptr.log r.ptr.stripe k ≡ true → is_lost r k ≡ true)
        → WasLooked r.servers r.ptr y r.phase }
    ensures goes_on { (now seen : Maps) (x y : Option ServerId) (end : ℕ) (bytes : List ℕ) (r : Reading) (response : Response)
        → ReadAtWork now seen y end bytes r
        → 2 ≤ r.servers → 0 < r.fragment → r.ptr.offset + r.ptr.len ≤ end
        → StripeRemains (view_of r.servers r.fragment now x) r.ptr.log r.ptr.stripe end bytes
        → (TellsOfFragment response → WasLooked r.servers r.ptr y r.phase)
        → MayTell now x (asked r) response
        → LeadsTo now seen x y end bytes r response (fed r response).0 (fed r response).1 }
    ensures gone { (now seen : Maps) (x y : Option ServerId) (end : ℕ) (bytes : List ℕ) (r : Reading) (response : Response)
        → ReadAtWork now seen y end bytes r
        → 2 ≤ r.servers → 0 < r.fragment → r.ptr.offset + r.ptr.len ≤ end
        → StripeHolds (view_of r.servers r.fragment now x) r.ptr.log r.ptr.stripe end bytes
        → MayTell now x (asked r) response → (fed r response).1 ≡ Got.Gone
        → AsksOther r.phase }
{}
