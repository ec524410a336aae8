ghost use Rattle.std.specs.Prelude.{◌≡◌, ◌<◌, Bool, None, length};
ghost use Rattle.zb_tables.specs.Tables.{Tables};
ghost use Rattle.zb_tables.specs.Taking.{Sizes};
ghost use Rattle.zb_client.specs.Seen.{SeenClient};
ghost use Rattle.zb_client.specs.Hearing.{takes_call};
ghost use Rattle.zb_progress.specs.Left.{steps_left};

/// A queued call that is taken up leaves fewer steps, and memory that is taken leaves as many.
pub fn moves_inside_leave_fewer_steps()
    ensures call { (z : Sizes) (t : Tables) (c : SeenClient)
        → c.task ≡ None → 0 < length c.queue → steps_left z t (takes_call c).client < steps_left z t c }
    ensures ready { (z : Sizes) (t : Tables) (c : SeenClient) (is : Bool) → steps_left z t (record c { is_ready = is }) ≡ steps_left z t c }
{}
