ghost use Rattle.std.specs.Prelude.{ℕ, ◌+◌, ◌<◌, ◌≤◌, List};
ghost use Rattle.std.specs.List.{sum};
ghost use Rattle.zb_log.specs.declared.placed.Placed.{Placed};
ghost use Rattle.zb_log.specs.Logs.{SeenLog, IsPlaced};
ghost use Rattle.zb_need.specs.Filling.{HalfFull};

/// A batch that is placed next in a log keeps its stripes half full: a stripe is left only where more bytes than its rest
/// go next, and these go into the next one.
pub fn placing_keeps_logs_half_full()
    // The bytes from before and those of the batch fill half of what the log has behind it.
    ensures half { (seen : SeenLog) (meta : ℕ) (blocks : List ℕ) (placed : Placed) (bytes : ℕ)
        → IsPlaced seen meta blocks placed → HalfFull seen.room seen.next bytes
        → HalfFull seen.room placed.next (bytes + (meta + sum blocks)) }

    // The place behind the batch lies within a stripe.
    ensures within { (seen : SeenLog) (meta : ℕ) (blocks : List ℕ) (placed : Placed)
        → 0 < seen.room → seen.block ≤ seen.room
        → IsPlaced seen meta blocks placed → seen.next.offset ≤ seen.room
        → placed.next.offset ≤ seen.room }
{}
