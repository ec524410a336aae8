ghost use Rattle.std.specs.Prelude.{◌≡◌, ◌≤◌, ◌-◌, ◌+◌, ◌++◌, ℕ, List, length, true};
ghost use Rattle.std.specs.List.{AllByRecursion};
ghost use Rattle.zb_types.specs.declared.calls.Call.{Call};
ghost use Rattle.zb_types.specs.declared.geometry.Geometry.{Geometry as System};
ghost use Rattle.zb_types.specs.declared.lines.Line.TheVariants.{Call as CallLine};
ghost use Rattle.zb_types.specs.declared.lines.Outcome.{Outcome};
ghost use Rattle.zb_headline.specs.Complete.{is_replied};
ghost use Rattle.zb_headline.specs.Need.{space_needed};
ghost use Rattle.zb_given.specs.Given.{FitGiven, Given, none_given, script_of, with_finish, with_item};
ghost use Rattle.zb_given.specs.Ends.{all_told};
ghost use Rattle.zb_manager.specs.Managers.{sizes_of};
ghost use Rattle.zb_work.specs.declared.work.Aim.TheVariants.{Finish};
ghost use Rattle.zb_work.specs.Steps.{new_task};
ghost use Rattle.zb_client.specs.declared.steps.Told.{Told};
ghost use Rattle.zb_client.specs.Seen.{SeenClient, unready};
ghost use Rattle.zb_line_laws.specs.Calls.{lines_in, queues};
ghost use Rattle.zb_progress.specs.Fresh.{MayRise};
ghost use Rattle.zb_system.specs.First.{AreFirst};
ghost use Rattle.zb_system.specs.Nodes.{IsClient, SeenNodes, with_client};
ghost use Rattle.zb_system.specs.Sound.{AreSound};
ghost use Rattle.zb_system.specs.Steps.{HasStepped, IsReadied};
ghost use Rattle.zb_finishing.specs.Clients.{AllIdle};
ghost use Rattle.zb_ample.specs.Turning.{AreInTurn, InTurn, IsUnfinished};

/// Clients are in turn at first, and where one of them is given a call, or begins to commit all that it keeps, while all are
/// idle; also where a finish is given, and where one takes memory for its next step.
pub fn clients_come_in_turn()
    ensures first { (geo : System) (n : SeenNodes) → AreFirst n → n.manager.sizes ≡ sizes_of geo → n.servers.slots ≡ geo.slots → InTurn geo none_given n }
    ensures call { (geo : System) (given : Given) (lines : List Outcome) (n : SeenNodes) (i : ℕ) (c : SeenClient) (call : Call) (place : ℕ)
        → AreSound given lines n → InTurn geo given n → IsClient n i c → AllIdle n
        → InTurn geo (with_item given (CallLine true (i + 1) call) place) (with_client n i (queues given c call)) }
    ensures finish { (geo : System) (given : Given) (n : SeenNodes) (place : ℕ) → InTurn geo given n → InTurn geo (with_finish given place) n }
    ensures finishes { (geo : System) (given : Given) (n : SeenNodes) (i : ℕ) (c : SeenClient)
        → InTurn geo given n → IsClient n i c → AllIdle n → InTurn geo given (with_client n i (record (unready c) { task = new_task Finish })) }
    ensures ready { (geo : System) (given : Given) (old new : SeenNodes) (i : ℕ) → InTurn geo given old → IsReadied old new i → InTurn geo given new }
{}

/// Where clients are in turn, and the updates that were given need no more space than there is, the next step leaves them in
/// turn, and each final line that it tells is a reply: no batch is given up for want of a slot, and none is behind a version.
pub fn clients_in_turn_have_space()
    ensures { (geo : System) (given : Given) (lines : List Outcome) (old new : SeenNodes) (i : ℕ) (told : Told)
        → AreSound given lines old → MayRise old.manager.tables → space_needed geo (script_of given) ≤ geo.slots - 4
        → InTurn geo given old → HasStepped old new i told
        → InTurn geo given new × AllByRecursion (λ line. is_replied line ≡ true) (lines_in told) }
{}

/// What in turn means by what was given. Where each call has its line, and no finish began, all clients in turn are idle. Where
/// one more call is given in turn, so were those before; each of them has its line, and no finish began. Also before a finish
/// was given, and by the lines that stood earlier, all was in turn.
pub fn calls_in_turn_find_all_idle()
    ensures idle { (geo : System) (given : Given) (lines : List Outcome) (n : SeenNodes)
        → AreSound given lines n → InTurn geo given n → all_told lines (script_of given) ≡ true → IsUnfinished given lines → AllIdle n }
    ensures call { (given : Given) (lines : List Outcome) (n : SeenNodes) (i : ℕ) (c : SeenClient) (call : Call)
        → AreSound given lines n → IsClient n i c → AreInTurn (with_item given (CallLine true (i + 1) call) (length lines)) lines
        → AreInTurn given lines × ((all_told lines (script_of given) ≡ true) × IsUnfinished given lines) }
    ensures finish { (given : Given) (lines : List Outcome) (place : ℕ) → AreInTurn (with_finish given place) lines → AreInTurn given lines }
    ensures lines { (given : Given) (lines more : List Outcome)
        → FitGiven given lines → AllByRecursion (λ at. at ≤ length lines) given.finishes → AreInTurn given (lines ++ more) → AreInTurn given lines }
{}
