ghost use Rattle.zb_given.specs.Stays.{AtWorkFinish, AtWorkOver, AtWorkStays, CallLeaves, CallStays, CountsOwn, CrashIsLater, EndedOver, FullOver, LookupOver, LookupStays, LooksUp, NamesOwn, NextIsFresh, NoCrash, NoneIsAhead, OpenFinish, OpenOver, OpenStays, SeenOver, SeenStays};

/// A client's calls are numbered in the order in which they were given; the next one has the next number, which no line
/// names yet; and what is given later leaves them where they are.
pub fn calls_stay()
    ensures own { NamesOwn }
    ensures count { CountsOwn }
    ensures fresh { NextIsFresh }
    ensures none_ahead { NoneIsAhead }
    ensures later { CallStays }
{}

/// An open call stays open where more is given or a finish begins, and behind lines of which none is its final one; updates that have ended
/// stay so, and so does that a client kept too many.
pub fn open_calls_stay()
    ensures given { OpenStays }
    ensures finish { OpenFinish }
    ensures over { OpenOver }
    ensures ended { EndedOver }
    ensures full { FullOver }
{}

/// An open read is looked up where all lines of now stand; it stays looked up so where more is given or a finish begins,
/// and behind the lines of others, and the tree that it saw is the same.
pub fn lookups_stay()
    ensures now { LooksUp }
    ensures given { LookupStays }
    ensures over { LookupOver }
    ensures at_work_given { AtWorkStays }
    ensures at_work_finish { AtWorkFinish }
    ensures at_work_over { AtWorkOver }
    ensures seen_given { SeenStays }
    ensures seen_over { SeenOver }
{}

/// A call may have its reply as far as crashes of the file manager go: where there was none; behind a line of a call where
/// it might before; and behind any line if each crash that was given before the call has its own.
pub fn crashes_come_later()
    ensures none { NoCrash }
    ensures call { CallLeaves }
    ensures later { CrashIsLater }
{}
