ghost use Rattle.std.specs.Prelude.{◌≡◌, ℕ, ◌+◌, ◌<◌, ◌≤◌, List, [], ◌∷◌, ◌++◌, length, Option, Some, None};
ghost use Rattle.zb_types.specs.declared.ids.ServerId.{ServerId};
ghost use Rattle.zb_types.specs.declared.ids.Ptr.{Ptr};
ghost use Rattle.zb_types.specs.declared.requests.Request.{Request};
ghost use Rattle.zb_types.specs.declared.requests.Response.{Response};
ghost use Rattle.zb_holding.specs.Fragments.{share_fragment};
ghost use Rattle.zb_holding.specs.Holding.{Maps, View, view_of, StripeRemains, standing};
ghost use Rattle.zb_holding.specs.Carrying.{carried};
ghost use Rattle.zb_stripe.specs.declared.progress.Phase.TheVariants as phase;
ghost use Rattle.zb_stripe.specs.Reading.{Reading, start, asked, fed};
ghost use Rattle.zb_stripe_laws.specs.ReadAtWork.{
  StillGrow,
  LetsRead,
  WasLooked,
  TellsOfFragment,
  MayTell,
  LeadsOn,
  LeadsTo,
};

use zb_stripe::Got;
use zb_stripe_laws::read_goes_on;

/// 300 bytes of a stripe are committed on four servers with fragments of 256 bytes, in shares of 256 and 44 bytes, and the
/// third share isn't there. A read that asks for the others in place of the first stays at work while the second share
/// grows and the third is stored.
pub fn a_read_stays_while_its_stripe_grows()
    ensures { (old new seen : Maps) (y : Option ServerId) (ptr : Ptr) (first second more third sum : List ℕ)
        → standing 4 old ptr.log ptr.stripe 0 ≡ Some (share_fragment first)
        → standing 4 new ptr.log ptr.stripe 0 ≡ Some (share_fragment first)
        → standing 4 old ptr.log ptr.stripe 1 ≡ Some (share_fragment second)
        → standing 4 new ptr.log ptr.stripe 1 ≡ Some (share_fragment (second ++ more))
        → standing 4 old ptr.log ptr.stripe 2 ≡ None
        → standing 4 new ptr.log ptr.stripe 2 ≡ Some (share_fragment third)
        → StillGrow 4 ptr old new seen y (phase.Others (256 ∷ 44 ∷ 0 ∷ []) sum 1) }
{}

/// A read begins over what remains of its stripe, and its first answer leads it on: this is the parity where the range's
/// own server is out. Then a request that lets it is carried out. The second answer, of the share that is asked for next
/// and from the maps as they are by now, leads it on or to an end that is right: if the share was looked at as the parity
/// was seen, and so at any rate where the server that wasn't looked at is the one that the read leaves out.
pub fn a_read_goes_on_through_parity()
    ensures led { (v : View) (out : Option ServerId) (ptr : Ptr) (end : ℕ) (bytes : List ℕ) (first : Response) (r : Reading)
        → 2 ≤ v.servers → 0 < v.fragment → 0 < ptr.len → ptr.offset + ptr.len ≤ end
        → StripeRemains v ptr.log ptr.stripe end bytes
        → MayTell v.maps v.away (asked (start v.servers v.fragment ptr out)) first
        → fed (start v.servers v.fragment ptr out) first ≡ (r, Got.More)
        → LeadsOn v.maps v.maps v.away v.away end bytes (start v.servers v.fragment ptr out) first r }
    ensures looked { (v : View) (out x : Option ServerId) (ptr : Ptr) (end : ℕ) (bytes : List ℕ) (first second : Response) (between : ServerId × Request) (r : Reading)
        → 2 ≤ v.servers → 0 < v.fragment → 0 < ptr.len → ptr.offset + ptr.len ≤ end
        → StripeRemains v ptr.log ptr.stripe end bytes
        → MayTell v.maps v.away (asked (start v.servers v.fragment ptr out)) first
        → fed (start v.servers v.fragment ptr out) first ≡ (r, Got.More)
        → LetsRead r between.1
        → StripeRemains (view_of v.servers v.fragment (carried v.maps between) x) ptr.log ptr.stripe end bytes
        → (TellsOfFragment second → WasLooked v.servers ptr v.away r.phase)
        → MayTell (carried v.maps between) x (asked r) second
        → LeadsTo (carried v.maps between) v.maps x v.away end bytes r second (fed r second).0 (fed r second).1 }
    ensures left_out { (v : View) (x : Option ServerId) (ptr : Ptr) (end : ℕ) (bytes : List ℕ) (first second : Response) (between : ServerId × Request) (r : Reading)
        → 2 ≤ v.servers → 0 < v.fragment → 0 < ptr.len → ptr.offset + ptr.len ≤ end
        → StripeRemains v ptr.log ptr.stripe end bytes
        → MayTell v.maps v.away (asked (start v.servers v.fragment ptr v.away)) first
        → fed (start v.servers v.fragment ptr v.away) first ≡ (r, Got.More)
        → LetsRead r between.1
        → StripeRemains (view_of v.servers v.fragment (carried v.maps between) x) ptr.log ptr.stripe end bytes
        → MayTell (carried v.maps between) x (asked r) second
        → LeadsTo (carried v.maps between) v.maps x v.away end bytes r second (fed r second).0 (fed r second).1 }
{
    read_goes_on();
}
