ghost use Rattle.std.specs.Prelude.{◌≡◌, List, ◌++◌};
ghost use Rattle.zb_types.specs.declared.calls.Reply.{Reply};
ghost use Rattle.zb_types.specs.declared.lines.Outcome.{Outcome};
ghost use Rattle.zb_claims.specs.Points.{dids, tree_at};
ghost use Rattle.zb_given.specs.Given.{FitGiven, Given, script_of};
ghost use Rattle.zb_tables.specs.Shown.{replies_through, tree_through};
ghost use Rattle.zb_basis.specs.Runs.{run_of};
ghost use Rattle.zb_forming_laws.specs.Resting.{updates_of};
ghost use Rattle.zb_client.specs.Hearing.{commits};
ghost use Rattle.zb_client.specs.Seen.{SeenClient};
ghost use Rattle.zb_line_laws.specs.Calls.{HasItsCalls, IsCalm, dids_of, lines_in};

/// A batch is committed, with the replies of the tree that the lines leave: the lines that tell them fit, leave the tree
/// after the batch's calls, and the client has its other calls then.
pub fn replied_batches_fit()
    ensures { (given : Given) (lines : List Outcome) (c : SeenClient) (replies : List Reply)
        → FitGiven given lines → HasItsCalls given lines c → IsCalm lines
        → replies ≡ replies_through (tree_at (script_of given) lines) (updates_of (run_of c.kept))
        → FitGiven given (lines ++ lines_in (commits c replies).told)
        × HasItsCalls given (lines ++ lines_in (commits c replies).told) (commits c replies).client
        × (dids (script_of given) (lines ++ lines_in (commits c replies).told) ≡ dids (script_of given) lines ++ dids_of c.client (run_of c.kept) replies)
        × (tree_at (script_of given) (lines ++ lines_in (commits c replies).told) ≡ tree_through (tree_at (script_of given) lines) (updates_of (run_of c.kept))) }
{}
