ghost use Rattle.std.specs.Prelude.{◌≡◌, ℕ, None};
ghost use Rattle.zb_types.specs.declared.tables.CommitFault.{CommitFault};
ghost use Rattle.zb_types.specs.Tree.{Tree};
ghost use Rattle.zb_stripe.specs.declared.flush.Flush.{Flush};
ghost use Rattle.zb_tables.specs.Fold.{Shelf};
ghost use Rattle.zb_tables.specs.Shown.{replies_through, tree_through};
ghost use Rattle.zb_tables.specs.Taking.{MayCommit, commit_refusal};
ghost use Rattle.zb_basis.specs.declared.basis.Basis.{Basis};
ghost use Rattle.zb_basis.specs.declared.basis.Sealed.{Sealed};
ghost use Rattle.zb_basis.specs.Runs.{run_of};
ghost use Rattle.zb_forming_laws.specs.Resting.{updates_of};
ghost use Rattle.zb_work.specs.declared.work.Step.TheVariants as step;
ghost use Rattle.zb_work.specs.Steps.{step_of};
ghost use Rattle.zb_client.specs.Seen.{SeenClient};
ghost use Rattle.zb_client.specs.Hearing.{commits, hears_outdated};
ghost use Rattle.zb_client_laws.specs.Around.{Around, IsAround};
ghost use Rattle.zb_client_laws.specs.Effects.{IsCommit, TellsNothing, after_commit};
ghost use Rattle.zb_client_laws.specs.Known.{IsKnown};
ghost use Rattle.zb_client_laws.specs.Sound.{ClientIsSound};

/// A commit of what a client has stored: it may be asked; where nothing refuses it, it takes the tree to that after the
/// batch's calls, with the plain tree's replies, and leaves the client sound; and one that is behind a version or the
/// members leaves the client sound.
pub fn commits_are_sound()
    ensures may { (slots : ℕ) (w : Around) (seen : Tree) (c : SeenClient) (basis : Basis) (sealed : Sealed)
        → IsAround slots w → IsKnown c → ClientIsSound w seen c → step_of c.task ≡ step.Commit basis sealed
        → MayCommit w.z w.tables sealed.batch sealed.placed.pieces }
    ensures done { (slots : ℕ) (w : Around) (seen : Tree) (c : SeenClient) (basis : Basis) (sealed : Sealed)
        → IsAround slots w → IsKnown c → ClientIsSound w seen c → step_of c.task ≡ step.Commit basis sealed
        → commit_refusal w.z.block w.tables sealed.batch sealed.placed.pieces sealed.members.generation ≡ None
        → (flush : Flush) × (after : Shelf) × (flush.log ≡ c.log.log)
        × IsCommit w flush sealed.placed.pieces sealed.batch after
        × (sealed.batch.number ≡ c.batch) × (sealed.batch.log ≡ c.log.log)
        × (after.replies ≡ replies_through w.tree (updates_of (run_of c.kept)))
        × IsAround slots (after_commit w flush c.batch sealed.placed.pieces after (tree_through w.tree (updates_of (run_of c.kept))))
        × ClientIsSound (after_commit w flush c.batch sealed.placed.pieces after (tree_through w.tree (updates_of (run_of c.kept)))) seen (commits c after.replies).client }
    ensures outdated { (w : Around) (seen : Tree) (c : SeenClient) (basis : Basis) (sealed : Sealed) (fault : CommitFault)
        → ClientIsSound w seen c → step_of c.task ≡ step.Commit basis sealed
        → ClientIsSound w seen (hears_outdated c fault).client × TellsNothing c (hears_outdated c fault) }
{}
