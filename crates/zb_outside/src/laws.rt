ghost use Rattle.zb_outside.specs.Keeping.{BesideATornRange};

/// What a write within the platter may have torn is the same beside its range.
///
/// The laws that speak of moments stand beside it as lemmas for the proofs of the layers above, in `proofs/Keeping.antt`,
/// since no contract can quantify over them: runs on platters, takes and puts keep what each of their moments has, one
/// after another keep what both keep, and a run leaves the other platters settled.
pub fn beside_a_torn_range()
    ensures { BesideATornRange }
{}
