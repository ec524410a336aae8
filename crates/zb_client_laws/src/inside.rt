ghost use Rattle.std.specs.Prelude.{◌≡◌, ℕ, Bool, [], ◌∷◌, ◌++◌, None};
ghost use Rattle.zb_types.specs.declared.calls.Call.{Call};
ghost use Rattle.zb_types.specs.declared.ids.LogId.{LogId};
ghost use Rattle.zb_types.specs.Tree.{Tree};
ghost use Rattle.zb_sound.specs.LastFlush.{NothingFrom};
ghost use Rattle.zb_sound.specs.LogsCurrent.{LogIsCurrent};
ghost use Rattle.zb_forming_laws.specs.Resting.{IsShort};
ghost use Rattle.zb_work.specs.declared.work.Aim.TheVariants.{Finish};
ghost use Rattle.zb_work.specs.Steps.{new_task};
ghost use Rattle.zb_client.specs.Seen.{SeenClient, first_client, unready};
ghost use Rattle.zb_client.specs.Hearing.{takes_call};
ghost use Rattle.zb_client_laws.specs.Around.{Around, IsAround};
ghost use Rattle.zb_client_laws.specs.Sound.{ClientIsSound};

/// A client whose log is new is sound, and stays so at what happens inside it: a call is put to its queue or taken from it,
/// memory is taken, and the commit of all that it keeps begins.
pub fn moves_inside_are_sound()
    ensures first { (slots : ℕ) (w : Around) (seen : Tree) (client : ℕ) (log : LogId)
        → IsAround slots w
        → LogIsCurrent w.tables log client 0 None w.tables.members.generation 0 0 → NothingFrom w.st.maps log 0
        → ClientIsSound w seen (first_client w.z.servers w.z.fragment w.z.block client log) }
    ensures push { (w : Around) (seen : Tree) (c : SeenClient) (number : ℕ) (call : Call)
        → IsShort call → ClientIsSound w seen c
        → ClientIsSound w seen (record (unready c) { queue = c.queue ++ (record { number = number; call = call }) ∷ [] }) }
    ensures call { (w : Around) (seen : Tree) (c : SeenClient)
        → c.task ≡ None → ClientIsSound w seen c → ClientIsSound w seen (takes_call c).client }
    ensures ready { (w : Around) (seen : Tree) (c : SeenClient) (is : Bool)
        → ClientIsSound w seen c → ClientIsSound w seen (record c { is_ready = is }) }
    ensures flush { (w : Around) (seen : Tree) (c : SeenClient)
        → c.task ≡ None → ClientIsSound w seen c → ClientIsSound w seen (record (unready c) { task = new_task Finish }) }
{}
