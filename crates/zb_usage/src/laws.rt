ghost use Rattle.std.specs.Prelude.{◌≡◌, ◌<◌, ◌^◌, ℕ};
ghost use Rattle.zb_types.specs.declared.ids.LogId.{LogId};
ghost use Rattle.zb_tables.specs.Tables.{EachFile, PointsIn, Tables, held_at};
ghost use Rattle.zb_tables.specs.Taking.{Sizes};
ghost use Rattle.zb_tables.specs.Checkpoint.{AreTables};
ghost use Rattle.zb_tables.specs.Finding.{status};
ghost use Rattle.zb_usage.specs.Uses.{all_live, candidates_in, candidates_of, closed, named_bytes, stripe_use};
ghost use Rattle.zb_usage.specs.Seen.{CountsUse, SeenUsage, counted, if_held};

/// The pointers into the held stripes name of each stripe the bytes that all pointers of the tables name of it.
pub fn live_pointers_tell_the_use()
    ensures { (z : Sizes) (t : Tables) → AreTables z t → EachFile (PointsIn t.held) t.files
        → (log : LogId) (stripe : ℕ) → named_bytes log stripe (all_live t) ≡ stripe_use t log stripe }
{}

/// Of a stripe that isn't held no byte is named, so its count may be dropped.
pub fn a_renewed_usage_counts_the_use()
    ensures { (z : Sizes) (t : Tables) (old new : SeenUsage) → AreTables z t → EachFile (PointsIn t.held) t.files → CountsUse old t
        → ((log : LogId) (stripe : ℕ) → counted new log stripe ≡ if_held (held_at log stripe t.held) (counted old log stripe)) → CountsUse new t }
{}

/// Where the counts are the use and each use has 32 bits, the candidates are those of the tables.
pub fn counts_give_the_candidates()
    ensures { (t : Tables) (usage : SeenUsage) → CountsUse usage t → ((log : LogId) (stripe : ℕ) → stripe_use t log stripe < 2 ^ 32)
        → usage.stripes ≡ closed (status t).logs t.held → candidates_of (counted usage) usage.stripes ≡ candidates_in t }
{}
