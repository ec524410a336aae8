ghost use Rattle.zb_slots.specs.Laws.{ReadsBack, DependsOnItsBytes, LeavesOthers, OtherNamesStay, OneHolds, NoneHolds, NewerCounts, CountsOne};

/// A header that may stand is read back from its payload.
pub fn headers_are_read_back()
    ensures { ReadsBack }
{}

/// A slot depends on its own bytes alone.
pub fn a_slot_depends_on_its_bytes()
    ensures { DependsOnItsBytes }
{}

/// What changes within one slot leaves the others.
pub fn other_slots_stay()
    ensures { LeavesOthers }
{}

/// A change of one slot leaves what is held under the names that it neither held nor holds.
pub fn other_names_stay()
    ensures { OtherNamesStay }
{}

/// A name that no other slot holds stands for what the one slot holds under it.
pub fn one_slot_holds_a_name()
    ensures { OneHolds }
{}

/// A name under which nothing is held stands in no slot.
pub fn unheld_names_stand_nowhere()
    ensures { NoneHolds }
{}

/// Of two parities of one name the one counts whose turn follows the other's, whatever their slots.
pub fn the_newer_parity_counts()
    ensures { NewerCounts }
{}

/// A change of one slot changes the count of the free ones by that slot.
pub fn a_changed_slot_is_counted()
    ensures { CountsOne }
{}
