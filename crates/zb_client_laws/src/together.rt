ghost use Rattle.std.specs.Prelude.{◌≡◌, ℕ, List, Option, Some, slice_get, slice_set};
ghost use Rattle.zb_types.specs.declared.ids.Piece.{Piece};
ghost use Rattle.zb_types.specs.declared.ids.ServerId.{ServerId};
ghost use Rattle.zb_types.specs.declared.nodes.Class.{Class};
ghost use Rattle.zb_types.specs.declared.requests.Request.{Request};
ghost use Rattle.zb_types.specs.Tree.{Tree};
ghost use Rattle.zb_stripe.specs.declared.flush.Flush.{Flush};
ghost use Rattle.zb_batch.specs.declared.batch.Batch.{Batch};
ghost use Rattle.zb_tables.specs.Fold.{Shelf};
ghost use Rattle.zb_sound.specs.Delivering.{FlushWorks, allowed};
ghost use Rattle.zb_client.specs.Seen.{SeenClient};
ghost use Rattle.zb_client_laws.specs.Around.{Around, IsAround};
ghost use Rattle.zb_client_laws.specs.Effects.{IsCommit, after_commit, after_request};
ghost use Rattle.zb_client_laws.specs.Sound.{ClientIsSound, ClientsAreSound, with_seen};

/// All clients of a system stay sound where one of them makes a step: inside itself, with a lookup or a fetch; with a
/// request of its flush that is carried out; and with the commit of its batch. Each has a log of its own.
pub fn clients_stay_sound_together()
    ensures inside { (w : Around) (seen : ℕ → Tree) (clients : List SeenClient) (i : ℕ) (c after : SeenClient) (tree : Tree)
        → ClientsAreSound w seen clients → slice_get clients i ≡ Some c → after.client ≡ c.client
        → ClientIsSound w tree after → ClientsAreSound w (with_seen seen i tree) (slice_set clients i after) }
    ensures store { (slots : ℕ) (w : Around) (seen : ℕ → Tree) (clients : List SeenClient) (i : ℕ) (c after : SeenClient)
        (out : Option ServerId) (class : Class) (flush : Flush) (left : List (ServerId × Request)) (asked : ServerId × Request)
        → IsAround slots w → ClientsAreSound w seen clients → slice_get clients i ≡ Some c → after.client ≡ c.client
        → flush.log ≡ c.log.log
        → FlushWorks w.z w.contents w.st w.tables.held (allowed w.tables.members) out class flush left → slice_get left 0 ≡ Some asked
        → ClientIsSound (after_request w asked) (seen i) after → ClientsAreSound (after_request w asked) seen (slice_set clients i after) }
    ensures commit { (slots : ℕ) (w : Around) (seen : ℕ → Tree) (clients : List SeenClient) (i : ℕ) (c after : SeenClient)
        (flush : Flush) (number : ℕ) (pieces : List Piece) (batch : Batch) (shelf : Shelf) (tree : Tree)
        → IsAround slots w → ClientsAreSound w seen clients → slice_get clients i ≡ Some c → after.client ≡ c.client
        → flush.log ≡ c.log.log → IsCommit w flush pieces batch shelf
        → ClientIsSound (after_commit w flush number pieces shelf tree) (seen i) after
        → ClientsAreSound (after_commit w flush number pieces shelf tree) seen (slice_set clients i after) }
{}
