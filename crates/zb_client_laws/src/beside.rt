ghost use Rattle.std.specs.Prelude.{◌≡◌, ◌≢◌, ℕ, List, Option, Some, slice_get};
ghost use Rattle.zb_types.specs.declared.ids.Piece.{Piece};
ghost use Rattle.zb_types.specs.declared.ids.ServerId.{ServerId};
ghost use Rattle.zb_types.specs.declared.nodes.Class.{Class};
ghost use Rattle.zb_types.specs.declared.requests.Request.{Request};
ghost use Rattle.zb_types.specs.Tree.{Tree};
ghost use Rattle.zb_stripe.specs.declared.flush.Flush.{Flush};
ghost use Rattle.zb_batch.specs.declared.batch.Batch.{Batch};
ghost use Rattle.zb_tables.specs.Fold.{Shelf};
ghost use Rattle.zb_sound.specs.Delivering.{FlushWorks, allowed};
ghost use Rattle.zb_client.specs.Seen.{SeenClient};
ghost use Rattle.zb_client_laws.specs.Around.{Around, IsAround};
ghost use Rattle.zb_client_laws.specs.Effects.{IsCommit, after_commit, after_request};
ghost use Rattle.zb_client_laws.specs.Sound.{ClientIsSound};

/// A client stays sound beside another: at each request of a flush of another log, and at each commit of one.
pub fn clients_stay_sound()
    ensures request { (slots : ℕ) (w : Around) (seen : Tree) (c : SeenClient) (out : Option ServerId) (class : Class) (flush : Flush)
        (left : List (ServerId × Request)) (asked : ServerId × Request)
        → IsAround slots w → c.log.log.0 ≢ flush.log.0
        → FlushWorks w.z w.contents w.st w.tables.held (allowed w.tables.members) out class flush left → slice_get left 0 ≡ Some asked
        → ClientIsSound w seen c → ClientIsSound (after_request w asked) seen c }
    ensures commit { (slots : ℕ) (w : Around) (seen : Tree) (c : SeenClient) (flush : Flush) (number : ℕ) (pieces : List Piece) (batch : Batch) (after : Shelf) (tree : Tree)
        → IsAround slots w → c.log.log.0 ≢ flush.log.0
        → IsCommit w flush pieces batch after
        → ClientIsSound w seen c → ClientIsSound (after_commit w flush number pieces after tree) seen c }
{}
