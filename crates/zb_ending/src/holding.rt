ghost use Rattle.std.specs.Prelude.{◌≡◌, ◌≢◌, ◌+◌, ℕ, List, None, Some};
ghost use Rattle.zb_types.specs.declared.calls.Call.{Call};
ghost use Rattle.zb_types.specs.declared.lines.Kind.TheVariants.{Idle};
ghost use Rattle.zb_types.specs.declared.lines.Outcome.{Outcome};
ghost use Rattle.zb_given.specs.Given.{Given};
ghost use Rattle.zb_turns.specs.Turns.{other_holder};
ghost use Rattle.zb_work.specs.declared.work.Aim.TheVariants.{Finish};
ghost use Rattle.zb_work.specs.Steps.{new_task};
ghost use Rattle.zb_client.specs.declared.steps.Told.{Told};
ghost use Rattle.zb_client.specs.Seen.{SeenClient, kind_of, unready};
ghost use Rattle.zb_line_laws.specs.Calls.{queues};
ghost use Rattle.zb_system.specs.First.{AreFirst};
ghost use Rattle.zb_system.specs.Nodes.{IsClient, SeenNodes, with_client};
ghost use Rattle.zb_system.specs.Sound.{AreSound};
ghost use Rattle.zb_system.specs.Steps.{HasStepped, IsReadied};
ghost use Rattle.zb_ending.specs.Holding.{HolderWorks, SomeGoesOn};

/// A client that holds the file manager keeps calls and has work, at first, and whatever the nodes do then or are given. So it
/// isn't idle, and nobody blocks it: where a client isn't idle, one that isn't is free to go on.
pub fn holders_work()
    ensures first { (n : SeenNodes) → AreFirst n → HolderWorks n }
    ensures step { (given : Given) (lines : List Outcome) (old new : SeenNodes) (i : ℕ) (told : Told)
        → AreSound given lines old → HolderWorks old → HasStepped old new i told → HolderWorks new }
    ensures ready { (old new : SeenNodes) (i : ℕ) → HolderWorks old → IsReadied old new i → HolderWorks new }
    ensures call { (given : Given) (n : SeenNodes) (i : ℕ) (c : SeenClient) (call : Call)
        → HolderWorks n → IsClient n i c → HolderWorks (with_client n i (queues given c call)) }
    ensures finishes { (n : SeenNodes) (i : ℕ) (c : SeenClient)
        → HolderWorks n → IsClient n i c → c.task ≡ None → HolderWorks (with_client n i (record (unready c) { task = new_task Finish })) }
    ensures free { (n : SeenNodes) (holder : ℕ) → HolderWorks n → n.manager.holder ≡ Some holder → other_holder holder n.manager.holder ≡ None }
    ensures busy { (n : SeenNodes) (i : ℕ) (c : SeenClient) → HolderWorks n → n.manager.holder ≡ Some (i + 1) → IsClient n i c → kind_of c ≢ Idle }
    ensures goes_on { (given : Given) (lines : List Outcome) (n : SeenNodes) (i : ℕ) (c : SeenClient)
        → AreSound given lines n → HolderWorks n → IsClient n i c → kind_of c ≢ Idle → SomeGoesOn n }
    ensures rests { (n : SeenNodes) → HolderWorks n → ((i : ℕ) (c : SeenClient) → IsClient n i c → kind_of c ≡ Idle) → n.manager.holder ≡ None }
{}
