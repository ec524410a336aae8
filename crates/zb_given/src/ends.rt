ghost use Rattle.zb_given.specs.Ends.{AllEnded, AllTold, OnlyCalls, TurnsOn, TurnsStay};

/// All that was given has its lines, or its last ones, just where that of each subject has; of calls alone it is enough to
/// know of the clients.
pub fn lines_by_subject()
    ensures told { AllTold }
    ensures ended { AllEnded }
    ensures only_calls { OnlyCalls }
{}

/// One item more is in turn just where all before it have their lines, and more lines change nothing of that.
pub fn turns_go_on()
    ensures next { TurnsOn }
    ensures lines { TurnsStay }
{}
