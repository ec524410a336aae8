ghost use Rattle.zb_given.specs.Adds.{AddsBuffered, AddsClean, AddsDropped, AddsEvent, AddsFailed, AddsKept, AddsRead, AddsRebuild, AddsUnfinished, AddsUpdate};

/// One line more of an open call leaves the lines as they fit: `kept buffered`, a reply to an update, a reply to a read
/// that was looked up, and each line by which a call can't go on, is dropped or ends unfinished.
pub fn lines_of_calls_fit()
    ensures buffered { AddsBuffered }
    ensures update { AddsUpdate }
    ensures read { AddsRead }
    ensures kept { AddsKept }
    ensures failed { AddsFailed }
    ensures dropped { AddsDropped }
    ensures unfinished { AddsUnfinished }
{}

/// So does a line of a job or an event of which more were given than have theirs.
pub fn lines_of_others_fit()
    ensures clean { AddsClean }
    ensures rebuild { AddsRebuild }
    ensures event { AddsEvent }
{}
