ghost use Rattle.std.specs.Prelude.{◌≤◌, ◌+◌, ◌*◌, ℕ, List};
ghost use Rattle.zb_types.specs.declared.ids.LogId.{LogId};
ghost use Rattle.zb_types.specs.declared.ids.Piece.{Piece};
ghost use Rattle.zb_types.specs.Limits.{most_kept};
ghost use Rattle.zb_stripe.specs.declared.flush.Flush.{Flush};
ghost use Rattle.zb_batch.specs.declared.batch.Batch.{Batch};
ghost use Rattle.zb_tables.specs.Fold.{Shelf, attached, committed};
ghost use Rattle.zb_tables.specs.Taking.{MayCommit};
ghost use Rattle.zb_tables.specs.Tables.{Tables, first_tables, last_value};
ghost use Rattle.zb_client_laws.specs.Around.{Around};
ghost use Rattle.zb_client_laws.specs.Effects.{IsCommit};
ghost use Rattle.zb_progress.specs.Fresh.{MayRise, RoseBy};

/// The numbers of the tables rise slowly: by one at each entry, and by eight at most the version of a file. So none is near its
/// last value, 2^48, before there are almost 2^45 entries.
pub fn numbers_rise_slowly()
    ensures first { RoseBy 1 first_tables }
    ensures attach { (entries owner : ℕ) (t : Tables) (log : LogId) → RoseBy entries t → RoseBy (entries + 1) (attached t owner log) }
    ensures commit { (entries : ℕ) (w : Around) (flush : Flush) (pieces : List Piece) (batch : Batch) (after : Shelf)
        → MayCommit w.z w.tables batch pieces → IsCommit w flush pieces batch after
        → RoseBy entries w.tables → RoseBy (entries + 1) (committed w.tables flush.log batch.number pieces after) }
    ensures may { (entries : ℕ) (t : Tables) → RoseBy entries t → most_kept * (entries + 1) ≤ last_value → MayRise t }
{}
