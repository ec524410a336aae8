ghost use Rattle.std.specs.Prelude.{◌≡◌, ℕ, List, Some};
ghost use Rattle.zb_types.specs.declared.ids.Piece.{Piece};
ghost use Rattle.zb_types.specs.Keyed.{look};
ghost use Rattle.zb_batch.specs.declared.batch.Batch.{Batch};
ghost use Rattle.zb_entries.specs.declared.entry.Entry.TheVariants.{Commit};
ghost use Rattle.zb_tables.specs.Tables.{LogState, Tables};
ghost use Rattle.zb_tables.specs.Fold.{folded};
ghost use Rattle.zb_manager.specs.declared.prepared.Prepared.{Prepared as Made};
ghost use Rattle.zb_manager.specs.Seen.{IsPrepared, last_in, prepared_tables};

/// Applying what was prepared is what the journal's entry does, and the last replies are then those that were prepared.
pub fn a_prepared_batch_is_folded()
    ensures folded { (b generation : ℕ) (t : Tables) (batch : Batch) (pieces : List Piece) (p : Made)
        → IsPrepared b t batch pieces p
        → folded b t (Commit batch.log batch.number generation pieces) batch ≡ Some (prepared_tables b t p) }
    ensures replies { (b : ℕ) (t : Tables) (batch : Batch) (pieces : List Piece) (p : Made) (l : LogState)
        → IsPrepared b t batch pieces p → look batch.log.0 t.logs ≡ Some l
        → last_in (look batch.log.0 (prepared_tables b t p).logs) ≡ Some (batch.number, p.replies) }
{}
