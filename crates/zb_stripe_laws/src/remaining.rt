ghost use Rattle.std.specs.Prelude.{◌≡◌, ◌⊎◌, ℕ, ◌≤◌, Bool, false, List, Option, None};
ghost use Rattle.zb_types.specs.declared.ids.LogId.{LogId};
ghost use Rattle.zb_types.specs.declared.ids.ServerId.{ServerId};
ghost use Rattle.zb_types.specs.declared.ids.FragId.{FragId};
ghost use Rattle.zb_types.specs.declared.requests.Request.TheVariants as ask;
ghost use Rattle.zb_holding.specs.Fragments.{Fragment};
ghost use Rattle.zb_holding.specs.Holding.{View, StripeHolds, StripeRemains, FragmentsRemain};
ghost use Rattle.zb_holding.specs.Carrying.{after_request};

/// What is held of a stripe remains of it. What remains does so whichever fragments are deleted or lost, where less of it is
/// looked at, and up to each lower end.
pub fn what_is_held_remains()
    ensures held { (v : View) (log : LogId) (stripe end : ℕ) (bytes : List ℕ)
        → StripeHolds v log stripe end bytes → StripeRemains v log stripe end bytes }
    ensures deleted { (v : View) (server : ServerId) (id : FragId) (log : LogId) (stripe end : ℕ) (bytes : List ℕ)
        → StripeRemains v log stripe end bytes
        → StripeRemains (after_request v (server, ask.Delete id)) log stripe end bytes }
    ensures lost { (m f : ℕ) (before now : ℕ → Option Fragment) (away : ℕ → Bool) (end : ℕ) (bytes : List ℕ)
        → ((k : ℕ) → away k ≡ false → (now k ≡ before k) ⊎ (now k ≡ None))
        → FragmentsRemain m f before away end bytes → FragmentsRemain m f now away end bytes }
    ensures away { (m f : ℕ) (stands : ℕ → Option Fragment) (away more : ℕ → Bool) (end : ℕ) (bytes : List ℕ)
        → ((k : ℕ) → more k ≡ false → away k ≡ false) → FragmentsRemain m f stands away end bytes
        → FragmentsRemain m f stands more end bytes }
    ensures lower { (m f : ℕ) (stands : ℕ → Option Fragment) (away : ℕ → Bool) (low high : ℕ) (bytes : List ℕ)
        → low ≤ high → FragmentsRemain m f stands away high bytes → FragmentsRemain m f stands away low bytes }
{}
