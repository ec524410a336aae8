ghost use Rattle.zb_given.specs.Lifts.{BySubject, FrontFitsGiven, LiftsAhead, LiftsAheadThreads, LiftsEnded, LiftsLast, LiftsRun, LiftsThreads, MoreFinished, MoreGiven, StepsAnywhere, TellsLegalGiven};

/// What is given later leaves the lines so far as they fit, with their history, and so does a finish. Each front of them
/// fits too.
pub fn more_may_be_given()
    ensures item { MoreGiven }
    ensures finish { MoreFinished }
    ensures front { FrontFitsGiven }
{}

/// Lines that fit what was given tell one legal history of the calls that they answer, each client's in its order.
pub fn given_lines_tell_a_history()
    ensures { TellsLegalGiven }
{}

/// Where a program gives a script to a world, each line once it is begun, and reads without a plus are answered at once,
/// lines that fit what was given fit the script, and tell one history with it. With threads they fit where no order of
/// the script's lines is claimed, if those of each subject were given in order.
pub fn given_lines_fit_the_script()
    ensures run { LiftsRun }
    ensures threads { LiftsThreads }
    ensures by_subject { BySubject }
{}

/// Each call, job and event has ended by the script where it has by what was given.
pub fn ends_are_those_of_the_script()
    ensures same { LiftsEnded }
    ensures last { LiftsLast }
{}

/// What is ahead of the lines by what was given is so by the script.
pub fn ahead_is_ahead_of_the_script()
    ensures run { LiftsAhead }
    ensures threads { LiftsAheadThreads }
{}

/// Step lines may stand anywhere in a script.
pub fn steps_stand_anywhere()
    ensures { StepsAnywhere }
{}
