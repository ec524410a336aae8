ghost use Rattle.std.specs.Prelude.{◌≡◌, ◌≢◌, ◌+◌, ◌++◌, ℕ, List, [], length, None};
ghost use Rattle.zb_types.specs.declared.lines.Kind.TheVariants.{Idle};
ghost use Rattle.zb_types.specs.declared.lines.Outcome.{Outcome};
ghost use Rattle.zb_given.specs.Given.{Given, with_finish};
ghost use Rattle.zb_turns.specs.Turns.{other_holder};
ghost use Rattle.zb_work.specs.declared.work.Aim.TheVariants.{Finish};
ghost use Rattle.zb_work.specs.Steps.{new_task};
ghost use Rattle.zb_client.specs.declared.steps.Told.{Told};
ghost use Rattle.zb_client.specs.Seen.{SeenClient, kind_of, unready};
ghost use Rattle.zb_line_laws.specs.Calls.{IsFinishing};
ghost use Rattle.zb_system.specs.Nodes.{IsClient, SeenNodes, with_client};
ghost use Rattle.zb_system.specs.Sound.{AreSound};
ghost use Rattle.zb_system.specs.Steps.{HasStepped, IsReadied};
ghost use Rattle.zb_ending.specs.Holding.{HolderWorks};
ghost use Rattle.zb_finishing.specs.Clients.{Finishes, FinishesAt, IsIdleAt, KeepsNoneAt};

/// A finish that is given has begun by the lines that stand then, and by all that come behind them.
pub fn finishes_begin()
    ensures given { (given : Given) (lines : List Outcome) → IsFinishing (with_finish given (length lines)) lines }
    ensures lasts { (given : Given) (lines more : List Outcome) → IsFinishing given lines → IsFinishing given (lines ++ more) }
{}

/// An idle client finishes where it keeps nothing, and where it is flushed. That stays so, whichever client is flushed or makes
/// a step, and whichever takes memory for one; and once the client is idle it keeps nothing.
pub fn finishes_leave_nothing()
    ensures rests { (c : SeenClient) → kind_of c ≡ Idle → c.kept ≡ [] → Finishes c }
    ensures flushed { (n : SeenNodes) (i : ℕ) (c : SeenClient) → IsClient n i c → kind_of c ≡ Idle
        → (j : ℕ) → (j ≢ i → FinishesAt n j) → FinishesAt (with_client n i (record (unready c) { task = new_task Finish })) j }
    ensures step { (given : Given) (lines : List Outcome) (old new : SeenNodes) (i : ℕ) (told : Told) → AreSound given lines old → HasStepped old new i told
        → (j : ℕ) → FinishesAt old j → FinishesAt new j }
    ensures ready { (old new : SeenNodes) (i : ℕ) → IsReadied old new i → (j : ℕ) → FinishesAt old j → FinishesAt new j }
    ensures ends { (n : SeenNodes) (i : ℕ) → FinishesAt n i → IsIdleAt n i → KeepsNoneAt n i }
{}

/// A client that alone has work is free: no other one holds the file manager.
pub fn alone_is_free()
    ensures { (n : SeenNodes) (i : ℕ) → HolderWorks n → ((j : ℕ) → j ≢ i → IsIdleAt n j) → other_holder (i + 1) n.manager.holder ≡ None }
{}
