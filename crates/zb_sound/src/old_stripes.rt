ghost use Rattle.std.specs.Prelude.{◌≡◌, ℕ, ◌+◌, ◌<◌, ◌≤◌, true, All, List, Option, Some};
ghost use Rattle.std.specs.List.{AllByRecursion};
ghost use Rattle.zb_types.specs.declared.ids.LogId.{LogId};
ghost use Rattle.zb_types.specs.declared.ids.ServerId.{ServerId};
ghost use Rattle.zb_types.specs.declared.ids.FragId.{FragId};
ghost use Rattle.zb_types.specs.declared.ids.Piece.{Piece};
ghost use Rattle.zb_types.specs.declared.ids.Ptr.{Ptr};
ghost use Rattle.zb_types.specs.declared.nodes.Members.{Members};
ghost use Rattle.zb_types.specs.declared.requests.Request.TheVariants as ask;
ghost use Rattle.zb_types.specs.declared.tables.HeldUse.{HeldUse};
ghost use Rattle.zb_types.specs.Keyed.{look};
ghost use Rattle.zb_types.specs.Tree.{Tree};
ghost use Rattle.zb_stripe.specs.declared.flush.Part.{Part};
ghost use Rattle.zb_stripe_laws.specs.PlanAtWork.{IsBesideEach};
ghost use Rattle.zb_tables.specs.Tables.{Contents, LogState, SameIn, Tables};
ghost use Rattle.zb_tables.specs.Fold.{Shelf, after_retire, attached, committed, following, held_with_all, retired, with_members};
ghost use Rattle.zb_tables.specs.Replay.{Platter};
ghost use Rattle.zb_tables.specs.Taking.{IsOther, Sizes};
ghost use Rattle.zb_tables.specs.Checkpoint.{AreTables};
ghost use Rattle.zb_recovery.specs.Missing.{Servers};
ghost use Rattle.zb_sound.specs.Standing.{StandFor};
ghost use Rattle.zb_sound.specs.Delivering.{after_asked};
ghost use Rattle.zb_sound.specs.LogsCurrent.{LogIsCurrent};
ghost use Rattle.zb_sound.specs.OldStripes.{CopiesAreCurrent, IsBehind, IsStray, NoneBehind};

/// A stray stripe stays one: at commits, none of whose pieces lies below its log's last stripe, at attaches, marks and
/// stripes that are given up; and one that is given up is stray, where its log has ended or has a later last stripe.
pub fn stray_stripes_stay()
    ensures commit { (t : Tables) (log : LogId) (number : ℕ) (pieces : List Piece) (s : Shelf) (of : LogId) (stripe : ℕ)
        → NoneBehind (look log.0 t.logs) pieces → IsStray t of stripe → IsStray (committed t log number pieces s) of stripe }
    ensures attach { (z : Sizes) (t : Tables) (owner : ℕ) (log of : LogId) (stripe : ℕ)
        → AreTables z t → log.0 ≡ t.next_log → IsStray t of stripe → IsStray (attached t owner log) of stripe }
    ensures mark { (t : Tables) (members : Members) (of : LogId) (stripe : ℕ) → IsStray t of stripe → IsStray (with_members t members) of stripe }
    ensures retire { (z : Sizes) (t : Tables) (log : LogId) (at : ℕ) (of : LogId) (stripe : ℕ)
        → AreTables z t → IsStray t of stripe → IsStray (after_retire t log at) of stripe }
    ensures given_up { (z : Sizes) (t : Tables) (log : LogId) (stripe : ℕ)
        → AreTables z t → log.0 < t.next_log → IsBehind stripe (look log.0 t.logs) → IsStray (after_retire t log stripe) log stripe }
{}

/// A delete of a fragment of a stray stripe leaves what the platters stand for, and the flush of each current log.
pub fn stray_fragments_may_go()
    ensures stands { (z : Sizes) (contents : Contents) (p : Platter) (st : Servers) (tables : Tables) (tree : Tree) (server : ServerId) (id : FragId)
        → StandFor z contents p st tables tree → IsStray tables id.log id.stripe
        → StandFor z contents p (after_asked st (server, ask.Delete id)) tables tree }
    ensures flushes { (t : Tables) (log : LogId) (owner batch : ℕ) (last : Option ℕ) (generation at front : ℕ) (parts : List Part) (id : FragId)
        → LogIsCurrent t log owner batch last generation at front → IsStray t id.log id.stripe
        → All (λ (part : Part). at ≤ part.stripe) parts → IsBesideEach (ask.Delete id) log parts }
{}

/// What the cleaner holds stays current where contents agree on what is committed, at commits, and while the stripes of its
/// pointers aren't given up.
pub fn copies_stay_current()
    ensures contents { (contents new : Contents) (held : List HeldUse) (blocks : List (Ptr × List ℕ))
        → SameIn held contents new → CopiesAreCurrent contents held blocks → CopiesAreCurrent new held blocks }
    ensures commit { (contents : Contents) (log : LogId) (born : ℕ) (pieces : List Piece) (held : List HeldUse) (blocks : List (Ptr × List ℕ))
        → CopiesAreCurrent contents held blocks → CopiesAreCurrent contents (held_with_all log born pieces held) blocks }
    ensures retire { (contents : Contents) (log : LogId) (stripe : ℕ) (held : List HeldUse) (blocks : List (Ptr × List ℕ))
        → AllByRecursion (λ (e : Ptr × List ℕ). IsOther log stripe (e.0).log (e.0).stripe) blocks
        → CopiesAreCurrent contents held blocks → CopiesAreCurrent contents (retired log stripe held) blocks }
{}
