ghost use Rattle.std.specs.Prelude.{◌≡◌, List, ℕ};
ghost use Rattle.zb_types.specs.declared.geometry.Geometry.{Geometry as System};
ghost use Rattle.zb_numbers.specs.Fronts.{IsPrefixFree};
ghost use Rattle.zb_tables.specs.Tables.{Tables};
ghost use Rattle.zb_tables.specs.Taking.{Sizes};
ghost use Rattle.zb_spelling.specs.Spelling.{spelling_of_tables};
ghost use Rattle.zb_spelling.specs.Unspelling.{HasFewBytes, IsCheckpoint, sizes_of};

/// The tables of a checkpoint have one spelling, whatever the sizes of the system, and no spelling of such tables is a
/// front of others'.
pub fn checkpoints_have_one_spelling()
    ensures one { (z other : Sizes) (t u : Tables) → HasFewBytes z → HasFewBytes other → IsCheckpoint z t → IsCheckpoint other u
        → spelling_of_tables t ≡ spelling_of_tables u → t ≡ u }
    ensures fronts { (z : Sizes) → HasFewBytes z → IsPrefixFree (IsCheckpoint z) spelling_of_tables }

    // The places in a stripe have four bytes in every system.
    ensures few { (geo : System) → HasFewBytes (sizes_of geo) }
{}
