ghost use Rattle.std.specs.Prelude.{◌≡◌, ◌≤◌, ◌<◌, ◌+◌, ◌*◌, ℕ, List};
ghost use Rattle.zb_types.specs.declared.lines.Outcome.{Outcome};
ghost use Rattle.zb_types.specs.Limits.{most_kept};
ghost use Rattle.zb_tables.specs.Tables.{last_value};
ghost use Rattle.zb_given.specs.Given.{Given};
ghost use Rattle.zb_client.specs.declared.steps.Told.{Told};
ghost use Rattle.zb_progress.specs.Fresh.{MayRise};
ghost use Rattle.zb_system.specs.Nodes.{SeenNodes};
ghost use Rattle.zb_system.specs.Sound.{AreSound};
ghost use Rattle.zb_system.specs.Steps.{HasStepped, IsReadied};
ghost use Rattle.zb_ending.specs.Left.{work_left};

/// Each step of a client leaves the clients fewer steps to take, all together, where no number of the tables is near its last
/// value; memory that is taken for one leaves as many. The numbers of sound tables are near it only once there are almost
/// 2^45 entries.
pub fn steps_come_to_an_end()
    ensures less { (given : Given) (lines : List Outcome) (old new : SeenNodes) (i : ℕ) (told : Told)
        → AreSound given lines old → MayRise old.manager.tables → HasStepped old new i told → work_left new < work_left old }
    ensures ready { (old new : SeenNodes) (i : ℕ) → IsReadied old new i → work_left new ≡ work_left old }
    ensures may_rise { (given : Given) (lines : List Outcome) (n : SeenNodes)
        → AreSound given lines n → most_kept * (n.manager.tables.next_entry + 1) ≤ last_value → MayRise n.manager.tables }
{}
