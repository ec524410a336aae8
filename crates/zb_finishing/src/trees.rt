ghost use Rattle.std.specs.Prelude.{◌≡◌, List};
ghost use Rattle.zb_types.specs.declared.lines.Outcome.{Outcome};
ghost use Rattle.zb_types.specs.declared.tables.TreeEntry.{TreeEntry};
ghost use Rattle.zb_types.specs.Tree.{listing};
ghost use Rattle.zb_claims.specs.Points.{tree_at};
ghost use Rattle.zb_given.specs.Given.{Given, script_of};
ghost use Rattle.zb_tables.specs.Tables.{Contents, shown_tree};
ghost use Rattle.zb_system.specs.Nodes.{SeenNodes};
ghost use Rattle.zb_system.specs.Sound.{AreSound};

/// The tables of sound nodes show the tree of the lines, where stripes have the bytes that the servers stand for; so what they
/// list whichever bytes stripes have is the listing of that tree.
pub fn tables_show_the_tree()
    ensures shown { (given : Given) (lines : List Outcome) (n : SeenNodes) (s : AreSound given lines n)
        → listing (shown_tree n.manager.sizes.block n.manager.tables s.contents) ≡ listing (tree_at (script_of given) lines) }
    ensures listed { (given : Given) (lines : List Outcome) (n : SeenNodes) (entries : List TreeEntry) → AreSound given lines n
        → ((contents : Contents) → entries ≡ listing (shown_tree n.manager.sizes.block n.manager.tables contents))
        → entries ≡ listing (tree_at (script_of given) lines) }
{}
