ghost use Rattle.std.specs.Prelude.{◌≡◌, ℕ, Bool, Some};
ghost use Rattle.zb_types.specs.declared.calls.Call.{Call};
ghost use Rattle.zb_types.specs.declared.calls.Reply.{Reply};
ghost use Rattle.zb_types.specs.declared.lines.Said.TheVariants as said;
ghost use Rattle.zb_types.specs.Apply.{reply_to};
ghost use Rattle.zb_types.specs.Tree.{Tree};
ghost use Rattle.std.specs.Prelude.{List};
ghost use Rattle.zb_basis.specs.declared.asks.Ask.{Ask};
ghost use Rattle.zb_basis.specs.Looking.{room_of};
ghost use Rattle.zb_work.specs.declared.work.Task.{Task};
ghost use Rattle.zb_work.specs.declared.work.Step.TheVariants as step;
ghost use Rattle.zb_work.specs.Fitting.{FoundFor};
ghost use Rattle.zb_client.specs.declared.steps.Answer.TheVariants as answer;
ghost use Rattle.zb_client.specs.declared.steps.Lookup.TheVariants.{Files, Names};
ghost use Rattle.zb_client.specs.Seen.{SeenClient};
ghost use Rattle.zb_client.specs.Hearing.{HearsLookup};
ghost use Rattle.zb_client.specs.Telling.{Heard, answers_read};
ghost use Rattle.zb_client.specs.Wishing.{lookup_of};
ghost use Rattle.zb_client_laws.specs.Around.{Around, IsAround};
ghost use Rattle.zb_client_laws.specs.Effects.{TellsRight, founds};
ghost use Rattle.zb_client_laws.specs.Known.{IsKnown};
ghost use Rattle.zb_client_laws.specs.Sound.{ClientIsSound};

/// A lookup that is answered from the tables: what they have may be found, and leaves the client sound, a read's lookup
/// being of the tree of now; and a reply that it tells is that of the tree of now.
pub fn lookups_are_sound()
    ensures may_find { (slots : ℕ) (w : Around) (seen : Tree) (c : SeenClient) (task : Task) (hold : Bool) (asks : List Ask)
        → IsAround slots w → IsKnown c → ClientIsSound w seen c
        → c.task ≡ Some task → task.step ≡ step.Lookup → lookup_of c task.tries c.kept ≡ Files hold asks
        → FoundFor c.block (room_of c.servers c.fragment) c.kept c.queue (founds w.tables asks) }
    ensures found { (slots : ℕ) (w : Around) (seen : Tree) (c : SeenClient) (task : Task) (hold : Bool) (asks : List Ask) (heard : Heard)
        → IsAround slots w → IsKnown c → ClientIsSound w seen c
        → c.task ≡ Some task → task.step ≡ step.Lookup → lookup_of c task.tries c.kept ≡ Files hold asks
        → HearsLookup c (answer.Found (founds w.tables asks)) heard
        → ClientIsSound w w.tree heard.client × TellsRight w.tree c heard }
    ensures named { (slots : ℕ) (w : Around) (seen : Tree) (c : SeenClient) (task : Task) (call : Call) (reply : Reply) (heard : Heard)
        → IsAround slots w → IsKnown c → ClientIsSound w seen c
        → c.task ≡ Some task → task.step ≡ step.Lookup → lookup_of c task.tries c.kept ≡ Names call
        → reply ≡ reply_to w.tree call → heard ≡ answers_read c (said.Reply reply)
        → ClientIsSound w seen heard.client × TellsRight w.tree c heard }
{}
