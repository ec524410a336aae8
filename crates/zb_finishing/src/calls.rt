ghost use Rattle.std.specs.Prelude.{◌≡◌, ℕ, true, List, [], IsTrue};
ghost use Rattle.zb_types.specs.declared.calls.Call.{Call};
ghost use Rattle.zb_types.specs.declared.lines.Line.TheVariants.{Call as CallLine};
ghost use Rattle.zb_types.specs.declared.lines.Outcome.{Outcome};
ghost use Rattle.zb_types.specs.Limits.{within};
ghost use Rattle.zb_claims.specs.Points.{Subject};
ghost use Rattle.zb_claims.specs.Runs.{all_ended};
ghost use Rattle.zb_given.specs.Ends.{HaveLastLines, HaveLines, all_told};
ghost use Rattle.zb_given.specs.Given.{Given, none_given, script_of, with_finish, with_item};
ghost use Rattle.zb_system.specs.Nodes.{SeenNodes};
ghost use Rattle.zb_system.specs.Sound.{AreSound};
ghost use Rattle.zb_finishing.specs.Clients.{AllIdle, AllKeepNone};
ghost use Rattle.zb_finishing.specs.Giving.{AreCalls};

/// Calls alone were given: where nothing was, where one more call of one of the clients is, and where a finish begins.
pub fn calls_are_given()
    ensures first { (clients : ℕ) → AreCalls clients none_given }
    ensures call { (clients : ℕ) (given : Given) (client at : ℕ) (call : Call)
        → IsTrue (within 1 clients client) → AreCalls clients given → AreCalls clients (with_item given (CallLine true client call) at) }
    ensures finish { (clients : ℕ) (given : Given) (at : ℕ) → AreCalls clients given → AreCalls clients (with_finish given at) }
{}

/// Where calls alone were given, and all clients are idle, each of them has a line; and its last one, where no client keeps any.
pub fn idle_clients_are_done()
    ensures lines { (given : Given) (lines : List Outcome) (n : SeenNodes) → AreSound given lines n → AreCalls n.manager.sizes.clients given → AllIdle n
        → (subject : Subject) → HaveLines given lines subject }
    ensures last { (given : Given) (lines : List Outcome) (n : SeenNodes) → AreSound given lines n → AreCalls n.manager.sizes.clients given → AllIdle n → AllKeepNone n
        → (subject : Subject) → HaveLastLines given lines subject }
    ensures told { (given : Given) (lines : List Outcome) (n : SeenNodes) → AreSound given lines n → AreCalls n.manager.sizes.clients given → AllIdle n
        → all_told lines (script_of given) ≡ true }
    ensures ended { (given : Given) (lines : List Outcome) (n : SeenNodes) → AreSound given lines n → AreCalls n.manager.sizes.clients given → AllIdle n → AllKeepNone n
        → all_ended lines [] (script_of given) ≡ true }
{}
