ghost use Rattle.std.specs.Prelude.{◌≡◌, ◌≤◌, ◌+◌, ◌*◌, ℕ, List};
ghost use Rattle.zb_types.specs.declared.calls.Call.{Call};
ghost use Rattle.zb_types.specs.declared.lines.Outcome.{Outcome};
ghost use Rattle.zb_types.specs.Limits.{most_kept};
ghost use Rattle.zb_tables.specs.Tables.{last_value};
ghost use Rattle.zb_given.specs.Given.{Given};
ghost use Rattle.zb_work.specs.declared.work.Aim.TheVariants.{Finish};
ghost use Rattle.zb_work.specs.Steps.{new_task};
ghost use Rattle.zb_client.specs.declared.steps.Told.{Told};
ghost use Rattle.zb_client.specs.Seen.{SeenClient, unready};
ghost use Rattle.zb_line_laws.specs.Calls.{queues};
ghost use Rattle.zb_progress.specs.Fresh.{MayRise};
ghost use Rattle.zb_system.specs.First.{AreFirst};
ghost use Rattle.zb_system.specs.Nodes.{IsClient, SeenNodes, with_client};
ghost use Rattle.zb_system.specs.Sound.{AreSound};
ghost use Rattle.zb_system.specs.Steps.{HasStepped, IsReadied};
ghost use Rattle.zb_ending.specs.Entries.{entries_ahead};

/// A call makes at most one entry of the file manager's journal: the entries so far, and the calls that haven't ended, are no
/// more behind a step than before it, and one more where a call is given. So the numbers of the tables may rise as long as
/// there are fewer than almost 2^45 calls.
pub fn entries_are_few()
    ensures first { (n : SeenNodes) → AreFirst n → entries_ahead n ≤ n.manager.sizes.clients + 2 }
    ensures step { (given : Given) (lines : List Outcome) (old new : SeenNodes) (i : ℕ) (told : Told)
        → AreSound given lines old → HasStepped old new i told → entries_ahead new ≤ entries_ahead old }
    ensures ready { (old new : SeenNodes) (i : ℕ) → IsReadied old new i → entries_ahead new ≡ entries_ahead old }
    ensures call { (given : Given) (n : SeenNodes) (i : ℕ) (c : SeenClient) (call : Call)
        → IsClient n i c → entries_ahead (with_client n i (queues given c call)) ≡ entries_ahead n + 1 }
    ensures finishes { (n : SeenNodes) (i : ℕ) (c : SeenClient)
        → IsClient n i c → entries_ahead (with_client n i (record (unready c) { task = new_task Finish })) ≡ entries_ahead n }
    ensures may_rise { (given : Given) (lines : List Outcome) (n : SeenNodes)
        → AreSound given lines n → most_kept * (entries_ahead n + 1) ≤ last_value → MayRise n.manager.tables }
{}
