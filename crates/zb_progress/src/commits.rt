ghost use Rattle.std.specs.Prelude.{◌≡◌, ◌<◌, ◌+◌, ◌*◌, false, List, length};
ghost use Rattle.zb_types.specs.declared.calls.Reply.{Reply};
ghost use Rattle.zb_types.specs.declared.tables.CommitFault.{CommitFault};
ghost use Rattle.zb_types.specs.Tree.{Tree};
ghost use Rattle.zb_tables.specs.Tables.{Tables};
ghost use Rattle.zb_tables.specs.Taking.{Sizes};
ghost use Rattle.zb_basis.specs.declared.basis.Basis.{Basis};
ghost use Rattle.zb_basis.specs.declared.basis.Sealed.{Sealed};
ghost use Rattle.zb_work.specs.declared.work.Step.TheVariants as step;
ghost use Rattle.zb_work.specs.Steps.{step_of};
ghost use Rattle.zb_client.specs.Seen.{SeenClient};
ghost use Rattle.zb_client.specs.Hearing.{commits, hears_outdated};
ghost use Rattle.zb_client_laws.specs.Around.{Around};
ghost use Rattle.zb_client_laws.specs.Known.{IsKnown};
ghost use Rattle.zb_client_laws.specs.Sound.{ClientIsSound};
ghost use Rattle.zb_progress.specs.Fresh.{is_fresh};
ghost use Rattle.zb_progress.specs.Left.{steps_from_lookup, steps_left};

/// A commit leaves fewer steps: one that is done leaves so many fewer, whatever the tables are then, that all that it adds to
/// the other clients is made up for; and one that is refused, where its batch isn't at the versions of the tables.
pub fn commits_leave_fewer_steps()
    ensures done { (w : Around) (seen : Tree) (c : SeenClient) (basis : Basis) (sealed : Sealed) (replies : List Reply) (after : Tables)
        → IsKnown c → ClientIsSound w seen c → step_of c.task ≡ step.Commit basis sealed → length replies ≡ length sealed.batch.ops
        → steps_left w.z after (commits c replies).client + w.z.clients * steps_from_lookup w.z < steps_left w.z w.tables c }
    ensures refused { (z : Sizes) (t : Tables) (c : SeenClient) (basis : Basis) (sealed : Sealed) (fault : CommitFault)
        → step_of c.task ≡ step.Commit basis sealed → is_fresh t c ≡ false
        → steps_left z t (hears_outdated c fault).client < steps_left z t c }
{}
