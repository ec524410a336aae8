ghost use Rattle.std.specs.Prelude.{◌≡◌, ℕ, List, [], ◌∷◌, ◌++◌, length, slice_get, true, false, Some};
ghost use Rattle.std.specs.List.{AllByRecursion, list_any};
ghost use Rattle.zb_types.specs.declared.ids.FragId.{FragId};
ghost use Rattle.zb_types.specs.declared.ids.Ptr.{Ptr as PtrOf};
ghost use Rattle.zb_types.specs.declared.tables.Status.{Status};
ghost use Rattle.zb_delta.specs.declared.delta.Body.{Body};
ghost use Rattle.zb_delta.specs.declared.delta.Delta.{Delta};
ghost use Rattle.zb_pass.specs.Copying.{AreBytes};
ghost use Rattle.zb_pass.specs.Moving.{moves};
ghost use Rattle.zb_pass.specs.Sweeping.{holds, is_stray, may_write, strays};
ghost use Rattle.zb_cleaner.specs.Deltas.{MovesOne};

/// Whatever stands at pointers: the blocks that a pass holds are what stands at their old pointers, as long as each that
/// comes is what stands at the pointer that is read.
pub fn blocks_are_what_stands_at_their_pointers()
    ensures begun { (bytes : PtrOf → List ℕ) (live : List Body) → AreBytes bytes live [] }
    ensures more { (bytes : PtrOf → List ℕ) (live : List Body) (blocks : List (List ℕ)) (body : Body) (block : List ℕ)
        → AreBytes bytes live blocks → slice_get live (length blocks) ≡ Some body → bytes body.now ≡ block → AreBytes bytes live (blocks ++ block ∷ []) }
{}

/// Each delta of a clean batch has the old pointer of its block, and the version of its file.
pub fn deltas_move_from_old_pointers()
    ensures { (live : List Body) (ptrs : List PtrOf) (k : ℕ) (delta : Delta) → slice_get (moves live ptrs) k ≡ Some delta → MovesOne live ptrs k delta }
{}

/// What is deleted is a stray, and nothing is deleted while its stripe is held, or while a live log may write it.
pub fn strays_alone_are_deleted()
    ensures strays { (status : Status) (ids : List FragId) → AllByRecursion (λ id. is_stray status id ≡ true) (strays status ids) }
    ensures unheld { (status : Status) (id : FragId) → is_stray status id ≡ true → list_any (holds id) status.held ≡ false }
    ensures behind { (status : Status) (id : FragId) → is_stray status id ≡ true → list_any (may_write id) status.logs ≡ false }
{}
