ghost use Rattle.std.specs.Prelude.{◌≡◌, ℕ, true, false, None, Some};
ghost use Rattle.zb_types.specs.declared.tables.CommitFault.{CommitFault};
ghost use Rattle.zb_types.specs.Tree.{Tree};
ghost use Rattle.zb_tables.specs.Taking.{commit_refusal};
ghost use Rattle.zb_basis.specs.declared.basis.Basis.{Basis};
ghost use Rattle.zb_basis.specs.declared.basis.Sealed.{Sealed};
ghost use Rattle.zb_work.specs.declared.work.Step.TheVariants as step;
ghost use Rattle.zb_work.specs.Steps.{step_of};
ghost use Rattle.zb_client.specs.Seen.{SeenClient};
ghost use Rattle.zb_client_laws.specs.Around.{Around, IsAround};
ghost use Rattle.zb_client_laws.specs.Known.{IsKnown};
ghost use Rattle.zb_client_laws.specs.Sound.{ClientIsSound};
ghost use Rattle.zb_progress.specs.Fresh.{IsStale, MayRise, is_fresh};

/// A batch whose lookups are at the versions that the tables have now is committed; and nothing but a version refuses one,
/// where no number of the tables is near its last value.
pub fn fresh_batches_are_committed()
    ensures fresh { (slots : ℕ) (w : Around) (seen : Tree) (c : SeenClient) (basis : Basis) (sealed : Sealed)
        → IsAround slots w → IsKnown c → ClientIsSound w seen c → step_of c.task ≡ step.Commit basis sealed
        → MayRise w.tables → is_fresh w.tables c ≡ true
        → commit_refusal w.z.block w.tables sealed.batch sealed.placed.pieces sealed.members.generation ≡ None }
    ensures refused { (slots : ℕ) (w : Around) (seen : Tree) (c : SeenClient) (basis : Basis) (sealed : Sealed) (fault : CommitFault)
        → IsAround slots w → IsKnown c → ClientIsSound w seen c → step_of c.task ≡ step.Commit basis sealed
        → MayRise w.tables
        → commit_refusal w.z.block w.tables sealed.batch sealed.placed.pieces sealed.members.generation ≡ Some fault
        → IsStale fault × (is_fresh w.tables c ≡ false) }
{}
