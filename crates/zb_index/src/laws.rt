ghost use Rattle.zb_index.specs.Laws.{NotFoundNotHeld, FoundHeld, NamesAreHeldOnce, FreeAreCounted, FreeAreFree, DependsOnItsSlots};

/// A name that an index doesn't find is held by no slot.
pub fn what_is_not_found_is_not_held()
    ensures { NotFoundNotHeld }
{}

/// A name that an index finds is held by the slot that it names, with that turn and length, and by no other.
pub fn what_is_found_is_held()
    ensures { FoundHeld }
{}

/// Each name is held by one slot.
pub fn names_are_held_once()
    ensures { NamesAreHeldOnce }
{}

/// As many slots are free as the index has free ones.
pub fn free_slots_are_counted()
    ensures { FreeAreCounted }
{}

/// A slot that an index has free is free.
pub fn free_slots_are_free()
    ensures { FreeAreFree }
{}

/// An index depends on its slots alone.
pub fn an_index_depends_on_its_slots()
    ensures { DependsOnItsSlots }
{}
