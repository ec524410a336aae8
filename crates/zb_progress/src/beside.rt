ghost use Rattle.std.specs.Prelude.{◌≡◌, ◌≤◌, ◌+◌, ℕ, List};
ghost use Rattle.zb_types.specs.declared.ids.Piece.{Piece};
ghost use Rattle.zb_types.specs.declared.ids.ServerId.{ServerId};
ghost use Rattle.zb_types.specs.declared.requests.Request.{Request};
ghost use Rattle.zb_types.specs.Tree.{Tree};
ghost use Rattle.zb_stripe.specs.declared.flush.Flush.{Flush};
ghost use Rattle.zb_tables.specs.Fold.{Shelf};
ghost use Rattle.zb_client.specs.Seen.{SeenClient};
ghost use Rattle.zb_client_laws.specs.Around.{Around};
ghost use Rattle.zb_client_laws.specs.Effects.{after_commit, after_request};
ghost use Rattle.zb_progress.specs.Left.{steps_from_lookup, steps_left};

/// Another client's request leaves a client as many steps, and the commit of another's batch adds at most those from a
/// lookup on.
pub fn others_leave_steps()
    ensures request { (w : Around) (asked : ServerId × Request) (c : SeenClient)
        → steps_left w.z (after_request w asked).tables c ≡ steps_left w.z w.tables c }
    ensures commit { (w : Around) (flush : Flush) (number : ℕ) (pieces : List Piece) (after : Shelf) (tree : Tree) (c : SeenClient)
        → steps_left w.z (after_commit w flush number pieces after tree).tables c ≤ steps_left w.z w.tables c + steps_from_lookup w.z }
{}
