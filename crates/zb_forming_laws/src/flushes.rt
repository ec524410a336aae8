ghost use Rattle.std.specs.Prelude.{◌≡◌, ℕ, ◌+◌, ◌≤◌, true, List, IsSomeAnd};
ghost use Rattle.std.specs.List.{AllByRecursion, AllZip};
ghost use Rattle.zb_types.specs.declared.nodes.Members.{Members};
ghost use Rattle.zb_types.specs.declared.tables.HeldUse.{HeldUse};
ghost use Rattle.zb_types.specs.Limits.{InLimits};
ghost use Rattle.zb_types.specs.Keyed.{look};
ghost use Rattle.zb_log.specs.Logs.{AreGiven, SeenLog};
ghost use Rattle.zb_entries.specs.declared.entry.Entry.TheVariants.{Commit};
ghost use Rattle.zb_tables.specs.Tables.{Contents, Tables, bytes_at};
ghost use Rattle.zb_tables.specs.Fold.{held_with_all};
ghost use Rattle.zb_tables.specs.Pointing.{OpsLie};
ghost use Rattle.zb_tables.specs.Replay.{IsBatchOf};
ghost use Rattle.zb_tables.specs.Taking.{MayCommit, Sizes, stripe_room};
ghost use Rattle.zb_sound.specs.Committing.{AreInFlush};
ghost use Rattle.zb_sound.specs.LookupsCurrent.{AreFetched};
ghost use Rattle.zb_basis.specs.declared.calls.Numbered.{Numbered};
ghost use Rattle.zb_basis.specs.declared.basis.Basis.{Basis};
ghost use Rattle.zb_basis.specs.declared.basis.Formed.{Formed};
ghost use Rattle.zb_basis.specs.Forming.{IsFormed};
ghost use Rattle.zb_basis.specs.Runs.{run_of};
ghost use Rattle.zb_forming_laws.specs.Resting.{AreShort, pairs_of};
ghost use Rattle.zb_forming_laws.specs.Flushing.{contents_with, flush_with};

/// A batch that was formed is found behind its flush, whichever bytes its log gave of its stripe: its new blocks stand at
/// its new pointers, its pieces spell it, lie in the flush, and are of the log's stripe at work or later ones; and its
/// pointers lie in what the pieces make held.
pub fn formed_batches_are_found()
    ensures stand { (n f b : ℕ) (log : SeenLog) (number : ℕ) (members : Members) (calls : List Numbered) (basis : Basis) (formed : Formed) (given : List ℕ) (contents : Contents)
        → (is : IsFormed n f b log number members calls basis formed) → AreGiven log given
        → AllZip (λ p block. bytes_at (contents_with contents log given formed is.blocks) p ≡ block) formed.sealed.placed.ptrs is.blocks }
    ensures spells { (n f b : ℕ) (log : SeenLog) (number generation : ℕ) (members : Members) (calls : List Numbered) (basis : Basis) (formed : Formed) (given : List ℕ) (contents : Contents)
        → (is : IsFormed n f b log number members calls basis formed) → AreGiven log given → 1 ≤ number
        → IsBatchOf (contents_with contents log given formed is.blocks) (Commit log.log number generation formed.sealed.placed.pieces) formed.sealed.batch }
    ensures pieces { (n f b : ℕ) (log : SeenLog) (number : ℕ) (members : Members) (calls : List Numbered) (basis : Basis) (formed : Formed) (given : List ℕ)
        → (is : IsFormed n f b log number members calls basis formed) → AreGiven log given
        → AreInFlush (flush_with log given formed is.blocks) formed.sealed.placed.pieces }
    ensures ahead { (n f b : ℕ) (log : SeenLog) (number : ℕ) (members : Members) (calls : List Numbered) (basis : Basis) (formed : Formed) (given : List ℕ)
        → IsFormed n f b log number members calls basis formed → AreGiven log given
        → AllByRecursion (λ p. log.next.stripe ≤ p.stripe) formed.sealed.placed.pieces }
    ensures lie { (n f b : ℕ) (log : SeenLog) (number born : ℕ) (members : Members) (calls : List Numbered) (basis : Basis) (formed : Formed) (held : List HeldUse)
        → IsFormed n f b log number members calls basis formed
        → OpsLie (held_with_all log.log born formed.sealed.placed.pieces held) formed.sealed.batch.ops }
{}

/// It is as a commit has to find it, where its calls are short and its log lives and had the batch before: a batch that can
/// be spelled, with pointers of one byte to a whole block, and with at least one and at most 4,093 pieces, each within its
/// stripe.
pub fn formed_batches_may_be_committed()
    ensures { (z : Sizes) (slots : ℕ) (t : Tables) (log : SeenLog) (number : ℕ) (members : Members) (kept calls : List Numbered) (basis : Basis) (formed : Formed) (given : List ℕ) (contents : Contents)
        → InLimits z.servers z.clients z.fragment z.block slots
        → (is : IsFormed z.servers z.fragment z.block log number members calls basis formed) → AreGiven log given → log.room ≡ stripe_room z → log.block ≡ z.block
        → calls ≡ run_of kept → AreShort calls → AreFetched (contents_with contents log given formed is.blocks) (pairs_of basis.fetched)
        → IsSomeAnd (look log.log.0 t.logs) (λ l. (l.live ≡ true) × (number ≡ l.batch + 1))
        → MayCommit z t formed.sealed.batch formed.sealed.placed.pieces }
{}
