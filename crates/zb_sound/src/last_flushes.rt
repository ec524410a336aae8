ghost use Rattle.std.specs.Prelude.{◌≡◌, ◌≢◌, ℕ, ◌+◌, ◌-◌, ◌<◌, ◌≤◌, max, All, List, [], ◌∷◌, ◌++◌, slice_get, Option, None, Some, false};
ghost use Rattle.zb_types.specs.declared.ids.LogId.{LogId};
ghost use Rattle.zb_types.specs.declared.ids.ServerId.{ServerId};
ghost use Rattle.zb_types.specs.declared.ids.FragId.{FragId};
ghost use Rattle.zb_types.specs.declared.ids.Piece.{Piece};
ghost use Rattle.zb_types.specs.declared.nodes.Class.{Class};
ghost use Rattle.zb_types.specs.declared.requests.Request.{Request};
ghost use Rattle.zb_types.specs.declared.requests.Response.TheVariants as told;
ghost use Rattle.zb_types.specs.declared.tables.HeldUse.{HeldUse};
ghost use Rattle.zb_types.specs.Tree.{Tree};
ghost use Rattle.zb_holding.specs.Holding.{Maps, is_away};
ghost use Rattle.zb_holding.specs.Carrying.{carried};
ghost use Rattle.zb_stripe.specs.declared.flush.Part.{Part};
ghost use Rattle.zb_stripe.specs.declared.flush.Flush.{Flush};
ghost use Rattle.zb_stripe.specs.Writing.{StripesRise, plan_requests};
ghost use Rattle.zb_stripe.specs.Feeding.{left_after};
ghost use Rattle.zb_stripe_laws.specs.PartAtWork.{IsSpared};
ghost use Rattle.zb_log.specs.Sealing.{GoesNext};
ghost use Rattle.zb_tables.specs.Tables.{Contents, SameIn, Tables};
ghost use Rattle.zb_tables.specs.Fold.{held_with_all};
ghost use Rattle.zb_batch.specs.declared.batch.Batch.{Batch};
ghost use Rattle.zb_entries.specs.declared.entry.Entry.TheVariants.{Commit};
ghost use Rattle.zb_tables.specs.Pointing.{OpsLie};
ghost use Rattle.zb_tables.specs.Replay.{IsBatchOf, Platter};
ghost use Rattle.zb_tables.specs.Taking.{MayCommit, Sizes, commit_refusal, stripe_room};
ghost use Rattle.zb_recovery.specs.Missing.{Servers};
ghost use Rattle.zb_sound.specs.Standing.{StandFor};
ghost use Rattle.zb_sound.specs.Delivering.{after_asked, allowed, FlushBegins, FlushWorks, ForEach, Misses, Missing, with_parts};
ghost use Rattle.zb_sound.specs.Committing.{AreInFlush, IsFlushed};
ghost use Rattle.zb_sound.specs.Changing.{OthersSame};
ghost use Rattle.zb_sound.specs.Staying.{LeavesParts, SameStripes};
ghost use Rattle.zb_sound.specs.LastFlush.{after_all, FindsItsPlace, IsBefore, IsLastOf, LastFlush, NothingFrom, NothingOfNew, OfName, Phase, anew, behind, flushing, parts_in, stripe_of};

/// A flush that a log has made finds its place: in the log's stripe its part begins behind what the last flush left
/// there, and nothing stands of the later stripes.
pub fn flush_finds_its_place()
    ensures behind { (z : Sizes) (contents : Contents) (p : Platter) (st : Servers) (tables : Tables) (tree : Tree) (who : Missing) (front : ℕ)
        (former : Part) (out : Option ServerId) (flush : Flush)
        → StandFor z contents p st tables tree → 2 ≤ z.servers → 0 < z.fragment
        → LastFlush z contents st tables.held who flush.log front (behind former)
        → All (GoesNext (stripe_room z) former.stripe former.bytes) flush.parts → StripesRise flush.parts
        → ForEach z.servers st who (λ x. IsSpared out x)
        → FlushBegins z contents st tables.held who out flush }
    ensures anew { (z : Sizes) (contents : Contents) (p : Platter) (st : Servers) (tables : Tables) (tree : Tree) (who : Missing) (front at : ℕ)
        (phase : Phase) (out : Option ServerId) (flush : Flush)
        → StandFor z contents p st tables tree → 2 ≤ z.servers → 0 < z.fragment
        → LastFlush z contents st tables.held who flush.log front phase → front ≤ at
        → All (GoesNext (stripe_room z) at []) flush.parts → StripesRise flush.parts
        → ForEach z.servers st who (λ x. IsSpared out x)
        → FlushBegins z contents st tables.held who out flush }
{}

/// Each request of a flush finds its place where its server is looked at: a store that there is no such fragment yet, and an
/// append that the share ends where its bytes go, so that neither is refused for that.
pub fn requests_find_their_places()
    ensures { (z : Sizes) (contents : Contents) (st : Servers) (held : List HeldUse) (who : Missing) (out : Option ServerId) (class : Class) (flush : Flush)
        (left : List (ServerId × Request)) (asked : ServerId × Request) (x : Option ServerId)
        → FlushWorks z contents st held who out class flush left → slice_get left 0 ≡ Some asked
        → Misses z.servers st who x → is_away x asked.0 ≡ false → FindsItsPlace asked.1 (st.maps asked.0) }
{}

/// The last flush of a log: of a new log there is none; one that may begin is under way; each of its requests, carried
/// out, leaves it under way, and so does one that is refused; with none left the log goes on behind its last part, committed
/// or not; and it may be given up at any time.
pub fn last_flush_of_a_log()
    ensures none { (z : Sizes) (contents : Contents) (st : Servers) (held : List HeldUse) (who : Missing) (log : LogId) (next_log : ℕ)
        → NothingOfNew st.maps next_log → next_log ≤ log.0 → LastFlush z contents st held who log 0 anew }
    ensures begins { (z : Sizes) (contents : Contents) (st : Servers) (held : List HeldUse) (who : Missing) (front at : ℕ) (phase : Phase)
        (given : List ℕ) (out : Option ServerId) (class : Class) (flush : Flush)
        → LastFlush z contents st held who flush.log front phase → FlushBegins z contents st held who out flush → StripesRise flush.parts
        → front ≤ at + 1 → All (GoesNext (stripe_room z) at given) flush.parts
        → LastFlush z contents st held who flush.log front (flushing out class flush (plan_requests z.servers z.fragment out class flush)) }
    ensures goes_on { (z : Sizes) (contents : Contents) (st : Servers) (held : List HeldUse) (who : Missing) (log : LogId) (front : ℕ)
        (out : Option ServerId) (class : Class) (flush : Flush) (left : List (ServerId × Request)) (asked : ServerId × Request)
        → slice_get left 0 ≡ Some asked → LastFlush z contents st held who log front (flushing out class flush left)
        → LastFlush z contents (after_asked st asked) held who log (max front (stripe_of asked.1 + 1)) (flushing out class flush (left_after left told.Done)) }
    ensures ends { (z : Sizes) (contents : Contents) (st : Servers) (held : List HeldUse) (who : Missing) (log : LogId) (front : ℕ)
        (out : Option ServerId) (class : Class) (flush : Flush) (part : Part)
        → LastFlush z contents st held who log front (flushing out class flush []) → IsLastOf part flush.parts
        → LastFlush z contents st held who log front (behind part) }
    ensures commits { (z : Sizes) (contents : Contents) (st : Servers) (held : List HeldUse) (who : Missing) (log : LogId) (front : ℕ)
        (out : Option ServerId) (class : Class) (flush : Flush) (part : Part) (born : ℕ) (pieces : List Piece)
        → LastFlush z contents st held who log front (flushing out class flush []) → IsLastOf part flush.parts → AreInFlush flush pieces
        → LastFlush z (with_parts contents log flush.parts) st (held_with_all log born pieces held) who log front (behind part) }
    ensures given_up { (z : Sizes) (contents new : Contents) (st : Servers) (held later : List HeldUse) (who after : Missing) (log : LogId) (front at : ℕ) (phase : Phase)
        → LastFlush z contents st held who log front phase → front ≤ at → LastFlush z new st later after log at anew }
{}

/// A flush whose requests are all carried out, one behind the other, comes to its end, and leaves what the platters stand
/// for; and a batch whose pieces are those of the flush's parts may then be committed, where nothing refuses it.
pub fn flushes_come_to_their_end()
    ensures ends { (z : Sizes) (contents : Contents) (p : Platter) (st : Servers) (tables : Tables) (tree : Tree) (log : LogId) (front : ℕ)
        (out : Option ServerId) (class : Class) (flush : Flush) (left : List (ServerId × Request))
        → StandFor z contents p st tables tree → LastFlush z contents st tables.held (allowed tables.members) log front (flushing out class flush left)
        → (later : ℕ) × StandFor z contents p (after_all st left) tables tree
        × LastFlush z contents (after_all st left) tables.held (allowed tables.members) log later (flushing out class flush []) }
    ensures flushed { (z : Sizes) (contents : Contents) (p : Platter) (st : Servers) (tables : Tables) (tree : Tree) (front : ℕ)
        (out : Option ServerId) (class : Class) (flush : Flush) (number generation : ℕ) (pieces : List Piece) (batch : Batch)
        → StandFor z contents p st tables tree → LastFlush z contents st tables.held (allowed tables.members) flush.log front (flushing out class flush [])
        → AreInFlush flush pieces → IsBatchOf (with_parts contents flush.log flush.parts) (Commit flush.log number generation pieces) batch
        → MayCommit z tables batch pieces → commit_refusal z.block tables batch pieces generation ≡ None
        → OpsLie (held_with_all flush.log tables.next_entry pieces tables.held) batch.ops
        → IsFlushed z contents (with_parts contents flush.log flush.parts) st tables flush.log number generation pieces batch }
{}

/// What leaves the last flush of a log: whatever leaves its parts and puts nothing into the stripes from the front on, and
/// contents that agree on what is committed. Such are the requests of a flush of another log, and those about a lower stripe; and whatever becomes of one server, where it
/// has nothing of these stripes.
pub fn last_flush_stays()
    ensures stays { (z : Sizes) (contents new_contents : Contents) (st new : Servers) (held later : List HeldUse) (who after : Missing) (log : LogId) (front : ℕ) (phase : Phase)
        → LeavesParts z st new who after log (parts_in phase) → SameStripes contents new_contents held later log (parts_in phase)
        → NothingFrom new.maps log front
        → LastFlush z contents st held who log front phase → LastFlush z new_contents new later after log front phase }
    ensures contents { (z : Sizes) (contents new : Contents) (st : Servers) (held : List HeldUse) (who : Missing) (log : LogId) (front : ℕ) (phase : Phase)
        → SameIn held contents new → LastFlush z contents st held who log front phase → LastFlush z new st held who log front phase }
    ensures request { (maps : Maps) (asked : ServerId × Request) (log : LogId) (front : ℕ)
        → OfName (IsBefore log front) asked.1 → NothingFrom maps log front → NothingFrom (carried maps asked) log front }
    ensures plan { (n f : ℕ) (out : Option ServerId) (class : Class) (flush : Flush) (i : ℕ) (asked : ServerId × Request) (log : LogId) (front : ℕ)
        → slice_get (plan_requests n f out class flush) i ≡ Some asked → log.0 ≢ flush.log.0 → OfName (IsBefore log front) asked.1 }
    ensures server { (st new : Servers) (a : ServerId) (log : LogId) (front : ℕ)
        → OthersSame st new a → ((id : FragId) → id.log.0 ≡ log.0 → front ≤ id.stripe → new.maps a id ≡ None)
        → NothingFrom st.maps log front → NothingFrom new.maps log front }
{}

/// No server has anything of a log that isn't given yet: not at the begin, nor after a request about a log that is given,
/// nor once more logs are given.
pub fn nothing_is_of_new_logs()
    ensures request { (maps : Maps) (asked : ServerId × Request) (next_log : ℕ)
        → OfName (λ id. id.log.0 < next_log) asked.1 → NothingOfNew maps next_log → NothingOfNew (carried maps asked) next_log }
    ensures plan { (n f : ℕ) (out : Option ServerId) (class : Class) (flush : Flush) (i : ℕ) (asked : ServerId × Request) (next_log : ℕ)
        → slice_get (plan_requests n f out class flush) i ≡ Some asked → flush.log.0 < next_log → OfName (λ id. id.log.0 < next_log) asked.1 }
    ensures attach { (maps : Maps) (next_log more : ℕ) → NothingOfNew maps next_log → next_log ≤ more → NothingOfNew maps more }
    ensures server { (st new : Servers) (a : ServerId) (next_log : ℕ)
        → OthersSame st new a → ((id : FragId) → next_log ≤ id.log.0 → new.maps a id ≡ None) → NothingOfNew st.maps next_log → NothingOfNew new.maps next_log }
{}
