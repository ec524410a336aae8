ghost use Rattle.std.specs.Prelude.{◌≡◌, ◌≢◌, ◌⊎◌, ℕ, ◌+◌, ◌<◌, ◌≤◌, true, All, List, Option, None, IsSomeAnd};
ghost use Rattle.std.specs.List.{AllByRecursion};
ghost use Rattle.zb_types.specs.declared.ids.LogId.{LogId};
ghost use Rattle.zb_types.specs.declared.ids.Piece.{Piece};
ghost use Rattle.zb_types.specs.declared.ids.FragId.{FragId};
ghost use Rattle.zb_types.specs.declared.requests.Request.TheVariants as ask;
ghost use Rattle.zb_types.specs.declared.nodes.Members.{Members};
ghost use Rattle.zb_types.specs.declared.nodes.State.TheVariants.{Whole};
ghost use Rattle.zb_types.specs.Keyed.{look};
ghost use Rattle.zb_stripe.specs.declared.flush.Part.{Part};
ghost use Rattle.zb_stripe_laws.specs.PlanAtWork.{IsBesideEach};
ghost use Rattle.zb_tables.specs.Tables.{Tables};
ghost use Rattle.zb_tables.specs.Fold.{Shelf, after_retire, attached, committed, following, last_of, with_members};
ghost use Rattle.zb_tables.specs.Taking.{regen_of};
ghost use Rattle.zb_sound.specs.LogsCurrent.{LogIsCurrent};

/// An owner's log stays current: from its attach on; while it delivers, goes on, and begins a flush of the members'
/// generation behind all that it has delivered; at its own commits; and at other logs' commits, other owners' attaches,
/// marks, and stripes that are given up.
pub fn logs_stay_current()
    ensures begins { (t : Tables) (owner : ℕ) (log : LogId) → LogIsCurrent (attached t owner log) log owner 0 None t.members.generation 0 0 }
    ensures delivers { (t : Tables) (log : LogId) (owner batch : ℕ) (last : Option ℕ) (generation at front later more : ℕ)
        → at ≤ later → front ≤ more → LogIsCurrent t log owner batch last generation at front → LogIsCurrent t log owner batch last generation later more }
    ensures anew { (t : Tables) (log : LogId) (owner batch : ℕ) (last : Option ℕ) (generation at front later : ℕ)
        → front ≤ later → LogIsCurrent t log owner batch last generation at front → LogIsCurrent t log owner batch last t.members.generation later front }
    ensures commits { (t : Tables) (log : LogId) (owner batch : ℕ) (last : Option ℕ) (generation at front later number : ℕ) (pieces : List Piece) (s : Shelf)
        → AllByRecursion (λ p. (p.stripe < front) × (p.stripe ≤ later)) pieces → at ≤ later
        → LogIsCurrent t log owner batch last generation at front
        → LogIsCurrent (committed t log number pieces s) log owner number (last_of last pieces) generation later front }
    ensures others { (t : Tables) (log : LogId) (owner batch : ℕ) (last : Option ℕ) (generation at front : ℕ) (other : LogId) (number : ℕ) (pieces : List Piece) (s : Shelf)
        → log.0 ≢ other.0 → LogIsCurrent t log owner batch last generation at front
        → LogIsCurrent (committed t other number pieces s) log owner batch last generation at front }
    ensures attach { (t : Tables) (log : LogId) (owner batch : ℕ) (last : Option ℕ) (generation at front : ℕ) (new : LogId) (who : ℕ)
        → log.0 ≢ new.0 → owner ≢ who → LogIsCurrent t log owner batch last generation at front
        → LogIsCurrent (attached t who new) log owner batch last generation at front }
    ensures mark { (t : Tables) (log : LogId) (owner batch : ℕ) (last : Option ℕ) (generation at front : ℕ) (members : Members)
        → t.members.generation ≤ members.generation → (members.state ≡ Whole) ⊎ (t.members.generation < members.generation)
        → LogIsCurrent t log owner batch last generation at front → LogIsCurrent (with_members t members) log owner batch last generation at front }
    ensures retire { (t : Tables) (log : LogId) (owner batch : ℕ) (last : Option ℕ) (generation at front : ℕ) (of : LogId) (stripe : ℕ)
        → LogIsCurrent t log owner batch last generation at front → LogIsCurrent (after_retire t of stripe) log owner batch last generation at front }
{}

/// What a log that is current is for: its batch with the next number is taken by its log, no batch of a flush at the
/// members' generation is refused for the generation or for a mark, and a fragment of a stripe below its last committed one
/// is of no stripe of its flush, so that it may be deleted.
pub fn current_logs_are_taken()
    ensures next { (t : Tables) (log : LogId) (owner batch : ℕ) (last : Option ℕ) (generation at front : ℕ)
        → LogIsCurrent t log owner batch last generation at front → IsSomeAnd (look log.0 t.logs) (λ l. (l.live ≡ true) × (batch + 1 ≡ l.batch + 1)) }
    ensures generation { (t : Tables) (log : LogId) (owner batch : ℕ) (last : Option ℕ) (generation at front : ℕ) (pieces : List Piece)
        → LogIsCurrent t log owner batch last generation at front → generation ≡ t.members.generation
        → AllByRecursion (λ p. at ≤ p.stripe) pieces → regen_of t log pieces generation ≡ None }
    ensures old { (t : Tables) (log : LogId) (owner batch : ℕ) (last : Option ℕ) (generation at front : ℕ) (parts : List Part) (id : FragId)
        → LogIsCurrent t log owner batch last generation at front → id.stripe + 1 < following last
        → All (λ (part : Part). at ≤ part.stripe) parts → IsBesideEach (ask.Delete id) log parts }
{}
