ghost use Rattle.zb_fragstore.specs.Laws.{FenceIsOne, ImageIsWhole, OwnImageOpens, FreeIsKnown, RoomForAll, NamesAreKnown, AllAreNamed};

/// The super cell of a platter tells one fence.
pub fn a_fence_is_one()
    ensures { FenceIsOne }
{}

/// An image of a server's platter is long enough for all that the server keeps.
pub fn an_image_is_whole()
    ensures { ImageIsWhole }
{}

/// A store is opened on an image of its server's platter, unless memory runs out or the platter stops.
pub fn an_own_image_opens()
    ensures { OwnImageOpens }
{}

/// A store knows how many slots of its platter are free.
pub fn free_slots_are_known()
    ensures { FreeIsKnown }
{}

/// The names that a platter holds and its free slots are together no more than its slots.
pub fn room_for_all()
    ensures { RoomForAll }
{}

/// A store has in memory just the names that its platter holds.
pub fn names_are_known()
    ensures { NamesAreKnown }
{}

/// All names that a platter holds are named by the answers to `identify`, the least first.
pub fn all_are_named()
    ensures { AllAreNamed }
{}
