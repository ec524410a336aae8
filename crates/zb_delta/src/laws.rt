ghost use Rattle.std.specs.Prelude.{◌≡◌, length};
ghost use Rattle.zb_delta.specs.declared.delta.Delta.{Delta};
ghost use Rattle.zb_numbers.specs.Fronts.{IsPrefixFree};
ghost use Rattle.zb_delta.specs.Spelling.{IsRead, delta_length, spelling_of_delta};

/// Each delta that is read has one spelling, and no spelling of one is a front of another's.
pub fn deltas_are_prefix_free()
    ensures { IsPrefixFree IsRead spelling_of_delta }
{}

/// Each delta takes the same number of bytes.
pub fn deltas_have_one_length()
    ensures { (delta : Delta) → length (spelling_of_delta delta) ≡ delta_length }
{}
