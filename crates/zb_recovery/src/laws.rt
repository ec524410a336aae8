ghost use Rattle.std.specs.Prelude.{◌≡◌, ℕ, ◌<◌, ◌≤◌};
ghost use Rattle.zb_types.specs.Tree.{Tree};
ghost use Rattle.zb_holding.specs.Holding.{View};
ghost use Rattle.zb_tables.specs.Replay.{Platter};
ghost use Rattle.zb_recovery.specs.Recovered.{Recovers};

/// What the file manager's platter and the servers in view recover to is one tree.
pub fn recovered_is_one_tree()
    ensures { (b : ℕ) (platter : Platter) (v : View) (one other : Tree)
        → 2 ≤ v.servers → 0 < v.fragment → Recovers b platter v one → Recovers b platter v other → one ≡ other }
{}
