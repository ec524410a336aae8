ghost use Rattle.std.specs.Prelude.{◌≡◌, ℕ, ◌-◌, ◌*◌, ◌<◌, ◌≤◌, Bool, true, List};
ghost use Rattle.zb_types.specs.declared.geometry.Geometry.{Geometry};
ghost use Rattle.zb_types.specs.declared.calls.Call.{Call};
ghost use Rattle.zb_types.specs.declared.lines.Line.TheVariants.{Call as CallLine};
ghost use Rattle.zb_types.specs.Apply.{is_update};
ghost use Rattle.zb_headline.specs.Need.{need_of};
ghost use Rattle.zb_log.specs.declared.places.Place.{Place};
ghost use Rattle.zb_need.specs.Filling.{HalfFull, stripes_begun};
ghost use Rattle.zb_need.specs.Weights.{need, needs, weights};

/// A log that is half full with what its updates weigh has begun at most as many stripes as they need.
pub fn half_full_logs_begin_few_stripes()
    ensures few { (geo : Geometry) (room : ℕ) (at : Place) (updates : List Call)
        → room ≡ (geo.servers - 1) * geo.fragment → 0 < room
        → HalfFull room at (weights geo updates)
        → stripes_begun at ≤ needs geo updates }

    // What an update needs is what its line may need.
    ensures lines { (geo : Geometry) (plus : Bool) (client : ℕ) (update : Call)
        → is_update update ≡ true → need_of geo (CallLine plus client update) ≡ need geo update }
{}
