ghost use Rattle.std.specs.Prelude.{◌≡◌, ◌≢◌, ◌⊎◌, ℕ, ◌≤◌, true, false, List, length, Option, Some, None, IsSome};
ghost use Rattle.std.specs.List.{AllByRecursion, slice_get};
ghost use Rattle.std.specs.List.Sorted.{IsStrictlySortedBy};
ghost use Rattle.std.specs.Map.{keys_of};
ghost use Rattle.std.specs.Ordering.{nat_cmp};
ghost use Rattle.zb_types.specs.declared.ids.LogId.{LogId};
ghost use Rattle.zb_types.specs.declared.ids.Piece.{Piece};
ghost use Rattle.zb_types.specs.declared.nodes.State.{State};
ghost use Rattle.zb_types.specs.declared.nodes.State.TheVariants.{Whole};
ghost use Rattle.zb_types.specs.Keyed.{look};
ghost use Rattle.zb_tables.specs.Tables.{LogState, Tables};
ghost use Rattle.zb_tables.specs.Fold.{Shelf, after_retire, all_marked, attached, committed, following, last_of, new_log};

/// After a commit its log has the batch's number, its replies and the last stripe with its pieces; other logs are as
/// they were.
pub fn commit_leaves_logs()
    ensures log { (t : Tables) (log : LogId) (number : ℕ) (pieces : List Piece) (s : Shelf) (l : LogState)
        → look log.0 t.logs ≡ Some l
        → look log.0 (committed t log number pieces s).logs ≡ Some (record l { batch = number; replies = s.replies; last = last_of l.last pieces }) }
    ensures others { (t : Tables) (log : LogId) (number : ℕ) (pieces : List Piece) (s : Shelf) (k : ℕ)
        → k ≢ log.0 → look k (committed t log number pieces s).logs ≡ look k t.logs }
{}

/// After an attach the new log is there; each live log of another owner is as it was, and no other log of this owner
/// lives.
pub fn attach_leaves_logs()
    ensures new { (t : Tables) (owner : ℕ) (log : LogId) → look log.0 (attached t owner log).logs ≡ Some (new_log owner) }
    ensures others { (t : Tables) (owner : ℕ) (log : LogId) (k : ℕ) (l : LogState)
        → k ≢ log.0 → look k t.logs ≡ Some l → l.live ≡ true → l.owner ≢ owner → look k (attached t owner log).logs ≡ Some l }
    ensures ended { (t : Tables) (owner : ℕ) (log : LogId) (k : ℕ) (l : LogState)
        → k ≢ log.0 → look k (attached t owner log).logs ≡ Some l → l.live ≡ true → l.owner ≢ owner }
    ensures before { (t : Tables) (owner : ℕ) (log : LogId) (k : ℕ) (l : LogState) → IsStrictlySortedBy nat_cmp (keys_of t.logs)
        → k ≢ log.0 → look k (attached t owner log).logs ≡ Some l → l.live ≡ true → look k t.logs ≡ Some l }
{}

/// A mark of any state but `Whole` gives each live log its mark, behind its last stripe; other logs, and all at `Whole`,
/// are as they were.
pub fn mark_leaves_logs()
    ensures live { (state : State) (logs : List (ℕ × LogState)) (k : ℕ) (l : LogState)
        → state ≢ Whole → look k logs ≡ Some l → l.live ≡ true → look k (all_marked state logs) ≡ Some (record l { mark = following l.last }) }
    ensures ended { (state : State) (logs : List (ℕ × LogState)) (k : ℕ) (l : LogState)
        → look k logs ≡ Some l → l.live ≡ false → look k (all_marked state logs) ≡ Some l }
    ensures none { (state : State) (logs : List (ℕ × LogState)) (k : ℕ) → look k logs ≡ None → look k (all_marked state logs) ≡ None }
    ensures whole { (logs : List (ℕ × LogState)) → all_marked Whole logs ≡ logs }
{}

/// After a stripe is retired each live log is as it was, and each log that is there was there.
pub fn retire_leaves_logs()
    ensures live { (t : Tables) (log : LogId) (stripe k : ℕ) (l : LogState)
        → look k t.logs ≡ Some l → l.live ≡ true → look k (after_retire t log stripe).logs ≡ Some l }
    ensures before { (t : Tables) (log : LogId) (stripe k : ℕ) (l : LogState) → IsStrictlySortedBy nat_cmp (keys_of t.logs)
        → look k (after_retire t log stripe).logs ≡ Some l → look k t.logs ≡ Some l }
{}

/// The last stripe with some pieces is the greatest of theirs and what was the last.
pub fn last_stripe_is_greatest()
    ensures pieces { (last : Option ℕ) (pieces : List Piece) (n : ℕ) → last_of last pieces ≡ Some n → AllByRecursion (λ p. p.stripe ≤ n) pieces }
    ensures former { (stripe : ℕ) (pieces : List Piece) (n : ℕ) → last_of (Some stripe) pieces ≡ Some n → stripe ≤ n }
    ensures one { (last : Option ℕ) (pieces : List Piece) (n : ℕ) → last_of last pieces ≡ Some n
        → (last ≡ Some n) ⊎ ((i : ℕ) × (p : Piece) × (slice_get pieces i ≡ Some p) × (p.stripe ≡ n)) }
    ensures some { (last : Option ℕ) (pieces : List Piece) → (IsSome last) ⊎ (1 ≤ length pieces) → IsSome (last_of last pieces) }
{}
