ghost use Rattle.std.specs.Prelude.{◌≡◌, ℕ, ◌+◌, ◌≤◌, List, [], ◌∷◌, All};
ghost use Rattle.zb_types.specs.declared.calls.Call.{Call};
ghost use Rattle.zb_types.specs.declared.tables.Found.{Found};
ghost use Rattle.zb_basis.specs.declared.calls.Numbered.{Numbered};
ghost use Rattle.zb_basis.specs.Looking.{ask_of, asks_of, AreFoundFor};
ghost use Rattle.zb_basis.specs.Wanting.{wanted_by, wanted_by_read, Holds};

/// Each old block that is wanted was found by a lookup, and lies within its stripe where those of the lookups do.
pub fn wanted_blocks_were_found()
    // For a batch.
    ensures batch_found { (b : ℕ) (calls : List Numbered) (founds : List Found) → All (Holds founds) (wanted_by b calls founds) }
    ensures batch_within { (b room : ℕ) (calls : List Numbered) (founds : List Found) → AreFoundFor b room (asks_of b calls) founds
        → All (λ p. p.offset + p.len ≤ room) (wanted_by b calls founds) }

    // For a read.
    ensures read_found { (b : ℕ) (call : Call) (founds : List Found) → All (Holds founds) (wanted_by_read b call founds) }
    ensures read_within { (b room : ℕ) (call : Call) (founds : List Found) → AreFoundFor b room (ask_of b call ∷ []) founds
        → All (λ p. p.offset + p.len ≤ room) (wanted_by_read b call founds) }
{}
