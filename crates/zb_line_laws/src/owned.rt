ghost use Rattle.std.specs.Prelude.{List};
ghost use Rattle.zb_types.specs.declared.calls.Reply.{Reply};
ghost use Rattle.zb_types.specs.declared.lines.Said.{Said};
ghost use Rattle.zb_types.specs.declared.nodes.Cause.{Cause};
ghost use Rattle.zb_client.specs.Hearing.{commits, takes_call};
ghost use Rattle.zb_client.specs.Seen.{SeenClient};
ghost use Rattle.zb_client.specs.Telling.{answers_read, gives_up};
ghost use Rattle.zb_line_laws.specs.Calls.{TellsOwn};

/// What a client tells is of no other client: where it takes a call, is answered, gives up, and where its batch is committed.
pub fn lines_are_the_clients_own()
    ensures taken { (c : SeenClient) → TellsOwn c (takes_call c) }
    ensures answered { (c : SeenClient) (what : Said) → TellsOwn c (answers_read c what) }
    ensures given_up { (c : SeenClient) (cause : Cause) → TellsOwn c (gives_up c cause) }
    ensures replied { (c : SeenClient) (replies : List Reply) → TellsOwn c (commits c replies) }
{}
