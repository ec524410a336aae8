ghost use Rattle.zb_given.specs.Queues.{Buffers, EndsKept, EndsQueued, IdleHasLines, KeepsFor, NoneKeptHasLast, StandFinish, StandFirst, StandGiven, StandOver, Takes};

/// A client's calls stand at the start, and where they stood where more is given, where a finish begins, and behind the
/// lines of others.
pub fn calls_stand()
    ensures first { StandFirst }
    ensures given { StandGiven }
    ensures finish { StandFinish }
    ensures over { StandOver }
{}

/// The next call is taken from the queue: a write or truncation is buffered where few are kept, another update begins the
/// commit of all, and is told `kept` with the cause where that can't go on.
pub fn calls_are_taken()
    ensures buffers { Buffers }
    ensures takes { Takes }
    ensures keeps { KeepsFor }
{}

/// The first call that is kept may have its final line, and so may a read that is the first of the queue.
pub fn calls_end()
    ensures kept { EndsKept }
    ensures queued { EndsQueued }
{}

/// A client with an empty queue, and no commit at work, has a line for each of its calls; and their last lines, if it
/// keeps none.
pub fn nothing_is_left()
    ensures idle { IdleHasLines }
    ensures none_kept { NoneKeptHasLast }
{}
