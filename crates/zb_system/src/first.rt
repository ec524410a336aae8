ghost use Rattle.std.specs.Prelude.{ℕ, []};
ghost use Rattle.zb_given.specs.Given.{none_given};
ghost use Rattle.zb_system.specs.First.{AreFirst};
ghost use Rattle.zb_system.specs.Nodes.{SeenNodes};
ghost use Rattle.zb_system.specs.Sound.{AreSound};

/// The first nodes of a system are sound: nothing was given, and nothing is told.
pub fn first_nodes_are_sound()
    ensures { (n : SeenNodes) → AreFirst n → AreSound none_given [] n }
{}
