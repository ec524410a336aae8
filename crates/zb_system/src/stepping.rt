ghost use Rattle.std.specs.Prelude.{ℕ, List, []};
ghost use Rattle.zb_types.specs.declared.lines.Outcome.{Outcome};
ghost use Rattle.zb_given.specs.Given.{Given};
ghost use Rattle.zb_client.specs.declared.steps.Told.{Told};
ghost use Rattle.zb_line_laws.specs.Calls.{lines_in};
ghost use Rattle.zb_system.specs.Nodes.{SeenNodes};
ghost use Rattle.zb_system.specs.Sound.{AreSound, StaysSound};
ghost use Rattle.zb_system.specs.Steps.{HasStepped, IsReadied};

/// A step of a client leaves the nodes sound, with the lines that it told; so does memory that was taken for one.
pub fn steps_leave_nodes_sound()
    ensures step { (given : Given) (lines : List Outcome) (old new : SeenNodes) (i : ℕ) (told : Told) (s : AreSound given lines old)
        → HasStepped old new i told → StaysSound s new i (lines_in told) }
    ensures ready { (given : Given) (lines : List Outcome) (old new : SeenNodes) (i : ℕ) (s : AreSound given lines old)
        → IsReadied old new i → StaysSound s new i [] }
{}
