ghost use Rattle.std.specs.Prelude.{◌≡◌, ◌<◌, ℕ, Bool, List, Some};
ghost use Rattle.zb_types.specs.declared.calls.Call.{Call};
ghost use Rattle.zb_types.specs.declared.calls.Reply.{Reply};
ghost use Rattle.zb_types.specs.declared.lines.Said.TheVariants as said;
ghost use Rattle.zb_types.specs.Tree.{Tree};
ghost use Rattle.zb_tables.specs.Tables.{Tables};
ghost use Rattle.zb_tables.specs.Taking.{Sizes};
ghost use Rattle.zb_basis.specs.declared.asks.Ask.{Ask};
ghost use Rattle.zb_work.specs.declared.work.Task.{Task};
ghost use Rattle.zb_work.specs.declared.work.Step.TheVariants as step;
ghost use Rattle.zb_client.specs.declared.steps.Answer.TheVariants as answer;
ghost use Rattle.zb_client.specs.declared.steps.Lookup.TheVariants.{Files, Names};
ghost use Rattle.zb_client.specs.Seen.{SeenClient};
ghost use Rattle.zb_client.specs.Hearing.{HearsLookup};
ghost use Rattle.zb_client.specs.Telling.{Heard, answers_read};
ghost use Rattle.zb_client.specs.Wishing.{lookup_of};
ghost use Rattle.zb_client_laws.specs.Around.{Around, IsAround};
ghost use Rattle.zb_client_laws.specs.Effects.{founds};
ghost use Rattle.zb_client_laws.specs.Known.{IsKnown};
ghost use Rattle.zb_client_laws.specs.Sound.{ClientIsSound};
ghost use Rattle.zb_progress.specs.Left.{steps_left};

/// A lookup that is answered from the tables leaves fewer steps.
pub fn lookups_leave_fewer_steps()
    ensures found { (slots : ℕ) (w : Around) (seen : Tree) (c : SeenClient) (task : Task) (hold : Bool) (asks : List Ask) (heard : Heard)
        → IsAround slots w → IsKnown c → ClientIsSound w seen c
        → c.task ≡ Some task → task.step ≡ step.Lookup → lookup_of c task.tries c.kept ≡ Files hold asks
        → HearsLookup c (answer.Found (founds w.tables asks)) heard
        → steps_left w.z w.tables heard.client < steps_left w.z w.tables c }
    ensures named { (z : Sizes) (t : Tables) (c : SeenClient) (task : Task) (call : Call) (reply : Reply)
        → c.task ≡ Some task → task.step ≡ step.Lookup → lookup_of c task.tries c.kept ≡ Names call
        → steps_left z t (answers_read c (said.Reply reply)).client < steps_left z t c }
{}
