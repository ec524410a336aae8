ghost use Rattle.std.specs.Prelude.{◌≡◌, ◌⊎◌, ℕ, All, List, [], slice_get, take, Option, Some, None, IfSome};
ghost use Rattle.zb_types.specs.declared.ids.LogId.{LogId};
ghost use Rattle.zb_types.specs.declared.ids.ServerId.{ServerId};
ghost use Rattle.zb_types.specs.declared.ids.Piece.{Piece};
ghost use Rattle.zb_types.specs.declared.nodes.Class.{Class};
ghost use Rattle.zb_types.specs.declared.requests.Request.{Request};
ghost use Rattle.zb_types.specs.declared.tables.HeldUse.{HeldUse};
ghost use Rattle.zb_types.specs.Tree.{Tree};
ghost use Rattle.zb_holding.specs.Holding.{StripeHolds};
ghost use Rattle.zb_stripe.specs.declared.flush.Flush.{Flush};
ghost use Rattle.zb_stripe_laws.specs.PartAtWork.{StripesDiffer};
ghost use Rattle.zb_stripe_laws.specs.PlanAtWork.{IsBeside};
ghost use Rattle.zb_tables.specs.Tables.{Contents, SameIn, Tables, held_at};
ghost use Rattle.zb_tables.specs.Fold.{held_with_all};
ghost use Rattle.zb_tables.specs.Replay.{Platter};
ghost use Rattle.zb_tables.specs.Taking.{IsServer, Sizes};
ghost use Rattle.zb_recovery.specs.Missing.{Servers};
ghost use Rattle.zb_recovery.specs.Agreeing.{ViewAgrees};
ghost use Rattle.zb_sound.specs.Standing.{StandFor, seen};
ghost use Rattle.zb_sound.specs.Delivering.{FlushWorks, PartFits, PartsStand, after_asked, any_one, with_parts};
ghost use Rattle.zb_sound.specs.Committing.{AreInFlush};
ghost use Rattle.zb_sound.specs.Rebuilding.{RebuildIsCovered, StandsWhole};

/// What a rebuild has covered stays so: it begins with all held stripes left; a stripe that stands whole is left no longer;
/// the requests of a flush that no server need be missing for, and those about no covered stripe, keep it; so do a commit
/// of such a flush, stripes that are given up, and contents that agree on what is committed; and with none left each held
/// stripe stands whichever server may be missing, as the rebuild's finish asks.
pub fn rebuild_stays_covered()
    ensures begins { (z : Sizes) (contents : Contents) (st : Servers) (held : List HeldUse) → RebuildIsCovered z contents st held held }
    ensures restored { (z : Sizes) (contents : Contents) (st : Servers) (held left later : List HeldUse) (log : LogId) (stripe : ℕ)
        → ((h : HeldUse) → held_at log stripe held ≡ Some h → StandsWhole z contents st log stripe h.end)
        → ((l : LogId) (s : ℕ) → held_at l s later ≡ None → (held_at l s left ≡ None) ⊎ ((l.0 ≡ log.0) × (s ≡ stripe)))
        → RebuildIsCovered z contents st held left → RebuildIsCovered z contents st held later }
    ensures flush { (z : Sizes) (contents : Contents) (p : Platter) (st : Servers) (tables : Tables) (tree : Tree) (left : List HeldUse)
        (out : Option ServerId) (class : Class) (flush : Flush) (requests : List (ServerId × Request)) (asked : ServerId × Request)
        → StandFor z contents p st tables tree → FlushWorks z contents st tables.held any_one out class flush requests
        → slice_get requests 0 ≡ Some asked
        → RebuildIsCovered z contents st tables.held left → RebuildIsCovered z contents (after_asked st asked) tables.held left }
    ensures beside { (z : Sizes) (contents : Contents) (st : Servers) (held left : List HeldUse) (asked : ServerId × Request)
        → ((l : LogId) (s : ℕ) (h : HeldUse) → held_at l s held ≡ Some h → held_at l s left ≡ None → IsBeside asked.1 l s)
        → RebuildIsCovered z contents st held left → RebuildIsCovered z contents (after_asked st asked) held left }
    ensures commit { (z : Sizes) (contents : Contents) (st : Servers) (held left : List HeldUse) (flush : Flush) (born : ℕ) (pieces : List Piece)
        → StripesDiffer flush.parts → All (PartFits z contents held flush.log) flush.parts → PartsStand z st any_one flush.log flush.parts → AreInFlush flush pieces
        → RebuildIsCovered z contents st held left
        → RebuildIsCovered z (with_parts contents flush.log flush.parts) st (held_with_all flush.log born pieces held) left }
    ensures fewer { (z : Sizes) (contents : Contents) (st : Servers) (held less left : List HeldUse)
        → ((l : LogId) (s : ℕ) (h : HeldUse) → held_at l s less ≡ Some h → held_at l s held ≡ Some h)
        → RebuildIsCovered z contents st held left → RebuildIsCovered z contents st less left }
    ensures contents { (z : Sizes) (contents new : Contents) (st : Servers) (held left : List HeldUse)
        → SameIn held contents new → RebuildIsCovered z contents st held left → RebuildIsCovered z new st held left }
    ensures ends { (z : Sizes) (contents : Contents) (st : Servers) (held : List HeldUse) (x : Option ServerId)
        → RebuildIsCovered z contents st held [] → IfSome x (IsServer z.servers) → ViewAgrees (seen z st x) contents held }
{}

/// A stripe that holds its committed bytes on all servers stands whole.
pub fn whole_stripes_stand()
    ensures { (z : Sizes) (contents : Contents) (st : Servers) (log : LogId) (stripe end : ℕ) (bytes : List ℕ)
        → StripeHolds (seen z st None) log stripe end bytes → take end (contents log stripe) ≡ take end bytes
        → StandsWhole z contents st log stripe end }
{}
