ghost use Rattle.std.specs.Prelude.{◌≡◌, ℕ, ◌+◌, ◌<◌, ◌≤◌, ◌++◌, List};
ghost use Rattle.zb_types.specs.declared.geometry.Geometry.{Geometry};
ghost use Rattle.zb_types.specs.declared.calls.Call.{Call};
ghost use Rattle.zb_types.specs.declared.nodes.Members.{Members};
ghost use Rattle.zb_log.specs.Logs.{SeenLog};
ghost use Rattle.zb_basis.specs.declared.calls.Numbered.{Numbered};
ghost use Rattle.zb_basis.specs.declared.basis.Basis.{Basis};
ghost use Rattle.zb_basis.specs.declared.basis.Formed.{Formed};
ghost use Rattle.zb_basis.specs.Forming.{IsFormed, Stand};
ghost use Rattle.zb_basis.specs.Operations.{Bytes};
ghost use Rattle.zb_need.specs.Filling.{HalfFull};
ghost use Rattle.zb_need.specs.Weights.{bytes_of, updates_of, weights};

/// The bytes of a formed batch are at most the weight of its calls, where its log has blocks of the system's size and the
/// blocks that were fetched and formed stand at their pointers.
pub fn formed_batches_keep_within_weight()
    ensures { (geo : Geometry) (n f b : ℕ) (log : SeenLog) (number : ℕ) (members : Members) (calls : List Numbered) (basis : Basis) (formed : Formed) (bytes : Bytes)
        → geo.block ≡ b → 0 < b → log.block ≡ b
        → (is : IsFormed n f b log number members calls basis formed)
        → Stand bytes basis.fetched formed.sealed.placed.ptrs is.blocks
        → bytes_of formed.sealed.batch is.blocks ≤ weights geo (updates_of calls) }
{}

/// Behind a formed batch its log stays half full with what its updates weigh.
pub fn formed_batches_keep_logs_half_full()
    // So many bytes from before fill half of the log, and then these and the weight of the batch's calls.
    ensures bytes { (geo : Geometry) (n f b : ℕ) (log : SeenLog) (number : ℕ) (members : Members) (calls : List Numbered) (basis : Basis) (formed : Formed) (bytes : Bytes) (before : ℕ)
        → geo.block ≡ b → 0 < b → log.block ≡ b
        → (is : IsFormed n f b log number members calls basis formed)
        → Stand bytes basis.fetched formed.sealed.placed.ptrs is.blocks
        → HalfFull log.room log.next before
        → HalfFull log.room formed.sealed.placed.next (before + weights geo (updates_of calls)) }

    // The updates that were stored before fill half of the log, and then these and those of the batch.
    ensures updates { (geo : Geometry) (n f b : ℕ) (log : SeenLog) (number : ℕ) (members : Members) (calls : List Numbered) (basis : Basis) (formed : Formed) (bytes : Bytes) (stored : List Call)
        → geo.block ≡ b → 0 < b → log.block ≡ b
        → (is : IsFormed n f b log number members calls basis formed)
        → Stand bytes basis.fetched formed.sealed.placed.ptrs is.blocks
        → HalfFull log.room log.next (weights geo stored)
        → HalfFull log.room formed.sealed.placed.next (weights geo (stored ++ updates_of calls)) }
{}
