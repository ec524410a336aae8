ghost use Rattle.std.specs.Prelude.{◌≡◌, ℕ, ◌<◌, Any, List};
ghost use Rattle.std.specs.List.{AllZip};
ghost use Rattle.zb_types.specs.declared.ids.LogId.{LogId};
ghost use Rattle.zb_types.specs.declared.ids.Piece.{Piece};
ghost use Rattle.zb_types.specs.declared.ids.Ptr.{Ptr};
ghost use Rattle.zb_types.specs.declared.tables.HeldUse.{HeldUse};
ghost use Rattle.zb_stripe.specs.declared.flush.Part.{Part};
ghost use Rattle.zb_stripe.specs.declared.flush.Flush.{Flush};
ghost use Rattle.zb_stripe_laws.specs.PartAtWork.{StripesDiffer};
ghost use Rattle.zb_log.specs.Logs.{IsPtrIn};
ghost use Rattle.zb_log.specs.Sealing.{IsPartOf, StandsIn, read_at};
ghost use Rattle.zb_tables.specs.Tables.{Contents, LiesIn, bytes_at};
ghost use Rattle.zb_tables.specs.Fold.{held_with_all};
ghost use Rattle.zb_tables.specs.Replay.{joined};
ghost use Rattle.zb_sound.specs.Delivering.{with_parts};
ghost use Rattle.zb_sound.specs.Committing.{AreInFlush};

/// What a log has sealed is as its commit needs it: the pieces lie in the parts, and join to the bytes that were sealed; a
/// pointer into a piece lies in what the pieces make held, and names its block.
pub fn sealed_batches_are_found()
    ensures pieces { (flush : Flush) (pieces : List Piece) → AllZip IsPartOf pieces flush.parts → AreInFlush flush pieces }
    ensures spells { (contents : Contents) (log : LogId) (parts : List Part) (pieces : List Piece)
        → StripesDiffer parts → AllZip IsPartOf pieces parts → joined (with_parts contents log parts) log pieces ≡ read_at pieces parts }
    ensures lies { (held : List HeldUse) (log : LogId) (born : ℕ) (pieces : List Piece) (ptr : Ptr) (n : ℕ)
        → 0 < n → IsPtrIn log pieces ptr n → LiesIn (held_with_all log born pieces held) ptr }
    ensures block { (contents : Contents) (log : LogId) (parts : List Part) (ptr : Ptr) (block : List ℕ)
        → StripesDiffer parts → ptr.log ≡ log → Any (StandsIn ptr block) parts → bytes_at (with_parts contents log parts) ptr ≡ block }
{}
