ghost use Rattle.std.specs.Prelude.{◌≡◌, ℕ, ◌+◌, List, length, true, None, Some};
ghost use Rattle.zb_types.specs.declared.calls.Call.{Call};
ghost use Rattle.zb_types.specs.declared.lines.Line.TheVariants.{Call as CallLine};
ghost use Rattle.zb_types.specs.declared.lines.Outcome.{Outcome};
ghost use Rattle.zb_given.specs.Given.{Given, with_finish, with_item};
ghost use Rattle.zb_forming_laws.specs.Resting.{IsShort};
ghost use Rattle.zb_work.specs.declared.work.Aim.TheVariants.{Finish};
ghost use Rattle.zb_work.specs.Steps.{new_task};
ghost use Rattle.zb_client.specs.Seen.{SeenClient, unready};
ghost use Rattle.zb_line_laws.specs.Calls.{IsFinishing, queues};
ghost use Rattle.zb_system.specs.Nodes.{IsClient, SeenNodes, with_client};
ghost use Rattle.zb_system.specs.Sound.{AreSound, StaysWith};

/// Nodes stay sound where a call is put into a client's queue, where a finish begins, and where a client then begins to
/// commit all that it keeps.
pub fn nodes_stay_sound_where_more_is_given()
    ensures call { (given : Given) (lines : List Outcome) (n : SeenNodes) (i : ℕ) (c : SeenClient) (call : Call) (s : AreSound given lines n)
        → IsClient n i c → IsShort call
        → StaysWith s (with_item given (CallLine true (i + 1) call) (length lines)) (with_client n i (queues given c call)) }
    ensures finish { (given : Given) (lines : List Outcome) (n : SeenNodes) (s : AreSound given lines n)
        → StaysWith s (with_finish given (length lines)) n }
    ensures finishes { (given : Given) (lines : List Outcome) (n : SeenNodes) (i : ℕ) (c : SeenClient) (s : AreSound given lines n)
        → IsClient n i c → c.task ≡ None → IsFinishing given lines
        → StaysWith s given (with_client n i (record (unready c) { task = new_task Finish })) }
{}
