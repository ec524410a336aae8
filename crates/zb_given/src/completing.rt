ghost use Rattle.zb_given.specs.Completing.{GivesInTurn, LiftsComplete};

/// A script without pluses is given in turn; and what is complete by what was given is so by the script: each call has
/// its final line at the end, and where nothing befalls the nodes, with one call after the other and ample space, a reply.
pub fn completeness_is_that_of_the_script()
    ensures in_turn { GivesInTurn }
    ensures complete { LiftsComplete }
{}
