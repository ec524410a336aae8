ghost use Rattle.std.specs.Prelude.{◌≡◌, ◌≢◌, ◌⊎◌, ℕ, ◌<◌, ◌≤◌, true, List, [], ◌∷◌, ◌++◌, All, length, slice_get, Option, Some, None};
ghost use Rattle.zb_types.specs.declared.ids.ServerId.{ServerId};
ghost use Rattle.zb_types.specs.declared.ids.LogId.{LogId};
ghost use Rattle.zb_types.specs.declared.ids.Piece.{Piece};
ghost use Rattle.zb_types.specs.declared.nodes.Class.{Class};
ghost use Rattle.zb_types.specs.declared.nodes.Members.{Members};
ghost use Rattle.zb_types.specs.declared.nodes.State.TheVariants.{Out, Mending};
ghost use Rattle.zb_types.specs.declared.requests.Request.{Request};
ghost use Rattle.zb_types.specs.declared.requests.Response.TheVariants as told;
ghost use Rattle.zb_types.specs.declared.tables.HeldUse.{HeldUse};
ghost use Rattle.zb_types.specs.Tree.{Tree};
ghost use Rattle.zb_holding.specs.Holding.{View};
ghost use Rattle.zb_stripe.specs.declared.flush.Part.{Part};
ghost use Rattle.zb_stripe.specs.declared.flush.Flush.{Flush};
ghost use Rattle.zb_stripe.specs.Writing.{IsWritable, plan_requests};
ghost use Rattle.zb_stripe.specs.Feeding.{left_after};
ghost use Rattle.zb_stripe_laws.specs.PartAtWork.{AreElsewhere, IsUnwritten, MayBegin, StripesDiffer};
ghost use Rattle.zb_stripe_laws.specs.PlanAtWork.{IsBeside, IsBesideEach, StoresBytes};
ghost use Rattle.zb_tables.specs.Tables.{Contents, SameIn, Tables, held_at};
ghost use Rattle.zb_tables.specs.Fold.{held_with_all, retired};
ghost use Rattle.zb_tables.specs.Replay.{Platter};
ghost use Rattle.zb_tables.specs.Taking.{IsOther, IsServer, Sizes, stripe_room};
ghost use Rattle.zb_recovery.specs.Missing.{Servers, is_unfit};
ghost use Rattle.zb_sound.specs.Standing.{StandFor, seen};
ghost use Rattle.zb_sound.specs.Delivering.{after_asked, allowed, any_one, CoversHeld, FlushBegins, FlushWorks, ForEach, IsNext, MayGoOn, Missing, PartFits, PartStands, PartsStand, with_parts};
ghost use Rattle.zb_sound.specs.Changing.{OthersFit, OthersSame};
ghost use Rattle.zb_sound.specs.Committing.{AreInFlush};
ghost use Rattle.zb_sound.specs.Staying.{LeavesParts, SameStripe, SameStripes};

/// A flush, request by request, whichever server may be missing: it begins with all of its requests left; the next one,
/// carried out, leaves it at work, leaves what the platters stand for, and leaves the parts of each other log; with none
/// left each of its parts stands.
pub fn flush_at_work()
    ensures begins { (z : Sizes) (contents : Contents) (st : Servers) (held : List HeldUse) (who : Missing) (out : Option ServerId) (class : Class) (flush : Flush)
        → FlushBegins z contents st held who out flush
        → FlushWorks z contents st held who out class flush (plan_requests z.servers z.fragment out class flush) }
    ensures goes_on { (z : Sizes) (contents : Contents) (st : Servers) (held : List HeldUse) (who : Missing)
        (out : Option ServerId) (class : Class) (flush : Flush) (left : List (ServerId × Request)) (request : ServerId × Request)
        → slice_get left 0 ≡ Some request → FlushWorks z contents st held who out class flush left
        → FlushWorks z contents (after_asked st request) held who out class flush (left_after left told.Done) }
    ensures keeps { (z : Sizes) (contents : Contents) (p : Platter) (st : Servers) (tables : Tables) (tree : Tree)
        (out : Option ServerId) (class : Class) (flush : Flush) (left : List (ServerId × Request)) (request : ServerId × Request)
        → StandFor z contents p st tables tree
        → slice_get left 0 ≡ Some request → FlushWorks z contents st tables.held (allowed tables.members) out class flush left
        → StandFor z contents p (after_asked st request) tables tree }
    ensures others { (z : Sizes) (contents : Contents) (st : Servers) (held : List HeldUse) (who : Missing)
        (out : Option ServerId) (class : Class) (flush : Flush) (left : List (ServerId × Request)) (request : ServerId × Request) (log : LogId) (parts : List Part)
        → slice_get left 0 ≡ Some request → FlushWorks z contents st held who out class flush left
        → log.0 ≢ flush.log.0 → LeavesParts z st (after_asked st request) who who log parts }
    ensures ends { (z : Sizes) (contents : Contents) (st : Servers) (held : List HeldUse) (who : Missing) (out : Option ServerId) (class : Class) (flush : Flush)
        → FlushWorks z contents st held who out class flush [] → PartsStand z st who flush.log flush.parts }
{}

/// Where a log goes on: a part that fits covers what is held of its stripe, also once the flush is committed; a part with
/// more bytes behind those of one that covers what is held fits, and may begin where that one stands; a stripe of which
/// nothing stands isn't held.
pub fn log_goes_on()
    ensures fits { (z : Sizes) (contents : Contents) (held : List HeldUse) (log : LogId) (part : Part)
        → PartFits z contents held log part → CoversHeld contents held log part }
    ensures committed { (z : Sizes) (contents : Contents) (held : List HeldUse) (flush : Flush) (born : ℕ) (pieces : List Piece) (before after : List Part) (part : Part)
        → StripesDiffer flush.parts → All (PartFits z contents held flush.log) flush.parts → AreInFlush flush pieces
        → flush.parts ≡ before ++ part ∷ after
        → CoversHeld (with_parts contents flush.log flush.parts) (held_with_all flush.log born pieces held) flush.log part }
    ensures next { (z : Sizes) (contents : Contents) (held : List HeldUse) (log : LogId) (former part : Part)
        → CoversHeld contents held log former → IsNext former part → IsWritable (stripe_room z) part → PartFits z contents held log part }
    ensures begins { (v : View) (log : LogId) (former part : Part)
        → PartStands v log former → IsNext former part → MayBegin v log part }
    ensures first { (z : Sizes) (contents : Contents) (p : Platter) (st : Servers) (tables : Tables) (tree : Tree) (log : LogId) (stripe : ℕ)
        → StandFor z contents p st tables tree → 2 ≤ z.servers → 0 < z.fragment
        → ForEach z.servers st (allowed tables.members) (λ x. IsUnwritten (seen z st x) log stripe)
        → held_at log stripe tables.held ≡ None }
{}

/// The contents with the bytes of a flush's parts: what was committed stays, each part has its bytes, and the other
/// stripes are as before.
pub fn parts_make_contents()
    ensures same { (z : Sizes) (contents : Contents) (held : List HeldUse) (log : LogId) (parts : List Part)
        → StripesDiffer parts → All (PartFits z contents held log) parts → SameIn held contents (with_parts contents log parts) }
    ensures bytes { (contents : Contents) (log : LogId) (before after : List Part) (part : Part)
        → StripesDiffer (before ++ part ∷ after) → with_parts contents log (before ++ part ∷ after) log part.stripe ≡ part.bytes }
    ensures others { (contents : Contents) (log : LogId) (parts : List Part) (other : LogId) (stripe : ℕ)
        → (other.0 ≢ log.0) ⊎ AreElsewhere stripe parts → with_parts contents log parts other stripe ≡ contents other stripe }
{}

/// A flush stays at work, its parts stand, and a log may go on, while no more servers may be missing and what is looked
/// at of the stripes is as before.
pub fn flush_stays()
    ensures works { (z : Sizes) (contents new_contents : Contents) (st new : Servers) (held later : List HeldUse) (who after : Missing)
        (out : Option ServerId) (class : Class) (flush : Flush) (left : List (ServerId × Request))
        → LeavesParts z st new who after flush.log flush.parts → SameStripes contents new_contents held later flush.log flush.parts
        → FlushWorks z contents st held who out class flush left → FlushWorks z new_contents new later after out class flush left }
    ensures stands { (z : Sizes) (st new : Servers) (who after : Missing) (log : LogId) (parts : List Part)
        → LeavesParts z st new who after log parts → PartsStand z st who log parts → PartsStand z new after log parts }
    ensures goes_on { (z : Sizes) (contents new_contents : Contents) (st new : Servers) (held later : List HeldUse) (who after : Missing) (log : LogId) (part : Part)
        → LeavesParts z st new who after log (part ∷ []) → SameStripe contents new_contents held later log part
        → MayGoOn z contents st held who log part → MayGoOn z new_contents new later after log part }
{}

/// What leaves the parts of a flush as they are: nothing that changed, that only those that the members allow may be
/// missing in place of any one, a request about other stripes, a server that is
/// marked out or mending where all others are fit, and whatever becomes of one server that isn't fit. A commit of another
/// log, and a stripe that is given up, leave what is held of each other stripe.
pub fn changes_leave_parts()
    ensures nothing { (z : Sizes) (st : Servers) (who : Missing) (log : LogId) (parts : List Part) → LeavesParts z st st who who log parts }
    ensures fewer { (z : Sizes) (st : Servers) (members : Members) (log : LogId) (parts : List Part) → LeavesParts z st st any_one (allowed members) log parts }
    ensures beside { (z : Sizes) (st : Servers) (who : Missing) (log : LogId) (parts : List Part) (asked : ServerId × Request)
        → IsBesideEach asked.1 log parts → LeavesParts z st (after_asked st asked) who who log parts }
    ensures mark { (z : Sizes) (st : Servers) (before members : Members) (log : LogId) (parts : List Part) (a : ServerId)
        → IsServer z.servers a → (members.state ≡ Out a) ⊎ (members.state ≡ Mending a) → OthersFit z before st a
        → LeavesParts z st st (allowed before) (allowed members) log parts }
    ensures away { (z : Sizes) (st new : Servers) (members : Members) (log : LogId) (parts : List Part) (a : ServerId)
        → IsServer z.servers a → is_unfit members new.blank a ≡ true → OthersFit z members st a → OthersSame st new a
        → LeavesParts z st new (allowed members) (allowed members) log parts }
    ensures commit { (log : LogId) (born : ℕ) (pieces : List Piece) (held : List HeldUse) (other : LogId) (stripe : ℕ)
        → other.0 ≢ log.0 → held_at other stripe (held_with_all log born pieces held) ≡ held_at other stripe held }
    ensures retire { (log : LogId) (stripe : ℕ) (held : List HeldUse) (other : LogId) (at : ℕ)
        → IsOther log stripe other at → held_at other at (retired log stripe held) ≡ held_at other at held }
{}

/// A request about no held stripe, such as a delete of a fragment of a stripe that was given up, leaves what the
/// platters stand for.
pub fn requests_beside_keep()
    ensures { (z : Sizes) (contents : Contents) (p : Platter) (st : Servers) (tables : Tables) (tree : Tree) (asked : ServerId × Request)
        → StandFor z contents p st tables tree → StoresBytes asked.1
        → ((log : LogId) (stripe : ℕ) (h : HeldUse) → held_at log stripe tables.held ≡ Some h → IsBeside asked.1 log stripe)
        → StandFor z contents p (after_asked st asked) tables tree }
{}
