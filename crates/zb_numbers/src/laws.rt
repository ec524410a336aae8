ghost use Rattle.zb_numbers.specs.Fronts.{IsPrefixFree};
ghost use Rattle.zb_numbers.specs.Numbers.{number_text, IsBelow};
ghost use Rattle.std.specs.Prelude.{ℕ};

/// The bytes of a number are no front of another number's.
pub fn numbers_are_prefix_free()
    ensures { (n : ℕ) → IsPrefixFree (IsBelow n) (number_text n) }
{}
