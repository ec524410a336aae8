ghost use Rattle.std.specs.Prelude.{◌≡◌, ◌⊎◌, ℕ, List, None, Some, false};
ghost use Rattle.zb_types.specs.declared.ids.Ptr.{Ptr};
ghost use Rattle.zb_cache.specs.Entries.{after_put, after_use, bytes_under, same_ptr};

/// A use changes what is found under no pointer.
pub fn a_use_leaves_what_is_found()
    ensures { (p q : Ptr) (entries : List (Ptr × List ℕ)) → bytes_under q (after_use p entries) ≡ bytes_under q entries }
{}

/// After a put its bytes are found under its pointer.
pub fn what_was_put_is_found()
    ensures { (n : ℕ) (p : Ptr) (bytes : List ℕ) (entries : List (Ptr × List ℕ)) → bytes_under p (after_put n p bytes entries) ≡ Some bytes }
{}

/// After a put under one pointer, what is found under another was found before.
pub fn a_put_brings_nothing_else()
    ensures { (n : ℕ) (p q : Ptr) (bytes : List ℕ) (entries : List (Ptr × List ℕ)) → same_ptr q p ≡ false
        → (bytes_under q (after_put n p bytes entries) ≡ None) ⊎ (bytes_under q (after_put n p bytes entries) ≡ bytes_under q entries) }
{}
