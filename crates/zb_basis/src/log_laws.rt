ghost use Rattle.std.specs.Prelude.{◌≡◌, ℕ, ◌≤◌, List, []};
ghost use Rattle.zb_stripe.specs.declared.flush.Flush.{Flush};
ghost use Rattle.zb_stripe.specs.declared.flush.FreshFlush.{FreshFlush};
ghost use Rattle.zb_stripe.specs.Fresh.{IsFreshFlush};
ghost use Rattle.zb_log.specs.declared.places.Place.{Place};
ghost use Rattle.zb_log.specs.Logs.{SeenLog, AreGiven, bytes_with, end_with, gone_on, last_of, renewed};

/// Which bytes a log gave of the stripe that it goes on in: none at the stripe's begin, and behind a flush those of
/// its last part.
pub fn what_logs_gave()
    // A log at the begin of a stripe, with no parity, as the first, gave none of it.
    ensures begun { (log : SeenLog) → 2 ≤ log.servers → log.next.offset ≡ 0 → log.parity ≡ [] → AreGiven log [] }

    // One that goes on at the begin of the stripe behind another gave none of it.
    ensures renewed { (log : SeenLog) (last : ℕ) → 2 ≤ log.servers → AreGiven (renewed log last) [] }

    // One that went on behind a flush gave the bytes of its last part, and where it has no parts those from before.
    ensures on { (old : SeenLog) (next : Place) (given : List ℕ) (flush : Flush) (fresh : FreshFlush) → AreGiven old given
        → IsFreshFlush old.servers old.fragment flush fresh
        → end_with old.next (last_of flush.parts) ≡ next
        → AreGiven (gone_on old next fresh.parts) (bytes_with given (last_of flush.parts)) }
{}
