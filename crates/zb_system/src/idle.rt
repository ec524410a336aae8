ghost use Rattle.std.specs.Prelude.{◌≡◌, ◌+◌, ℕ, List, []};
ghost use Rattle.zb_types.specs.declared.lines.Kind.TheVariants.{Idle};
ghost use Rattle.zb_types.specs.declared.lines.Outcome.{Outcome};
ghost use Rattle.zb_claims.specs.Points.{calls};
ghost use Rattle.zb_given.specs.Given.{Given};
ghost use Rattle.zb_given.specs.Ends.{HaveLines, HaveLastLines};
ghost use Rattle.zb_client.specs.Seen.{SeenClient, kind_of};
ghost use Rattle.zb_system.specs.Nodes.{IsClient, SeenNodes};
ghost use Rattle.zb_system.specs.Sound.{AreSound};

/// Each call of a client that is idle has a line; and its last one, where the client keeps none.
pub fn idle_clients_have_lines()
    ensures lines { (given : Given) (lines : List Outcome) (n : SeenNodes) (i : ℕ) (c : SeenClient)
        → AreSound given lines n → IsClient n i c → kind_of c ≡ Idle → HaveLines given lines (calls (i + 1)) }
    ensures last { (given : Given) (lines : List Outcome) (n : SeenNodes) (i : ℕ) (c : SeenClient)
        → AreSound given lines n → IsClient n i c → kind_of c ≡ Idle → c.kept ≡ [] → HaveLastLines given lines (calls (i + 1)) }
{}
