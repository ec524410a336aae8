ghost use Rattle.std.specs.Prelude.{◌≡◌, ◌<◌, ◌^◌, ◌+◌, ◌++◌, ℕ, true, List, length, IsTrue};
ghost use Rattle.std.specs.List.{AllByRecursion};
ghost use Rattle.zb_types.specs.declared.geometry.Geometry.{Geometry};
ghost use Rattle.zb_types.specs.declared.lines.Outcome.{Outcome};
ghost use Rattle.zb_types.specs.Limits.{within};
ghost use Rattle.zb_claims.specs.Text.{HasReply, IsOutcome};
ghost use Rattle.zb_headline.specs.Complete.{lacks_space_alone};
ghost use Rattle.zb_given.specs.Given.{FitGiven, Given, calls_of};
ghost use Rattle.zb_client.specs.declared.steps.Told.{Told};
ghost use Rattle.zb_line_laws.specs.Calls.{lines_in};
ghost use Rattle.zb_system.specs.Nodes.{SeenNodes};
ghost use Rattle.zb_system.specs.Sound.{AreSound};
ghost use Rattle.zb_system.specs.Steps.{HasStepped};
ghost use Rattle.zb_finishing.specs.Telling.{MayTell, NamesGiven};

/// The lines that a step of a client tells are of its calls: replies, that a call is buffered, and that one can't go on since
/// one of the system's servers has no slot left.
pub fn steps_may_tell()
    ensures { (given : Given) (lines : List Outcome) (old new : SeenNodes) (i : ℕ) (told : Told) → AreSound given lines old → HasStepped old new i told
        → AllByRecursion (MayTell old.manager.sizes.servers (i + 1)) (lines_in told) }
{}

/// By such lines nothing was wanting but space.
pub fn lines_lack_space_alone()
    ensures { (servers client : ℕ) (lines : List Outcome)
        → AllByRecursion (MayTell servers client) lines → AllByRecursion (λ line. lacks_space_alone line ≡ true) lines }
{}

/// Lines that fit what was given name calls that were given.
pub fn lines_name_calls()
    ensures { (given : Given) (lines more : List Outcome) → FitGiven given (lines ++ more) → AllByRecursion (NamesGiven given) more }
{}

/// Such lines of one of the clients may stand in a report, if their replies may, and it was given fewer than 2^64 calls.
pub fn lines_may_stand()
    ensures { (geo : Geometry) (given : Given) (client : ℕ) (lines : List Outcome)
        → IsTrue (within 1 geo.clients client) → length (calls_of given client) < 2 ^ 64
        → AllByRecursion (MayTell geo.servers client) lines → AllByRecursion (NamesGiven given) lines → AllByRecursion HasReply lines
        → AllByRecursion (IsOutcome geo) lines }
{}
