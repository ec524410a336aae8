ghost use Rattle.std.specs.Prelude.{◌≤◌, slice_index};
ghost use Rattle.zb_outside.specs.Counts.{Raises};

/// Raises the count of one platter.
pub fn raise(counts: &mut [u64; 256], platter: usize)
    requires { platter ≤ 255 }
    ensures { Raises platter (slice_index counts.old) (slice_index counts.new) }
{
    counts[platter] = counts[platter].saturating_add(1);
}
