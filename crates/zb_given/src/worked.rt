ghost use Rattle.zb_given.specs.Worked.{DroppedLift, FullLift, HelloLift, LateLift, TwoLift, WrongGiven};

/// Worked rows: one client's calls as they are taken, kept and answered; and from what their worlds were given to the
/// script two clients with pluses and step lines; a client that crashes, step by step through a program's loop; a pass and
/// an update without space; a read that is answered late.
pub fn rows_are_given()
    ensures hello { HelloLift }
    ensures two { TwoLift }
    ensures dropped { DroppedLift }
    ensures full { FullLift }
    ensures late { LateLift }
{}

/// A line before its call was given, a stale read, and an update that is unfinished before a finish don't fit; and a late
/// read without a plus isn't at once.
pub fn wrong_rows_are_not()
    ensures { WrongGiven }
{}
