ghost use Rattle.std.specs.Prelude.{ℕ};
ghost use Rattle.zb_client.specs.declared.steps.Told.{Told};
ghost use Rattle.zb_client.specs.Seen.{SeenClient};
ghost use Rattle.zb_system.specs.Nodes.{SeenNodes, with_client};
ghost use Rattle.zb_system.specs.Steps.{HasStepped, IsReadied};
ghost use Rattle.zb_finishing.specs.Clients.{IsIdleAt, KeepsNoneAt, OthersStay, SizesStay};

/// A client that is idle makes no step, so it stays idle whichever client does, and keeps no more.
pub fn idle_clients_stay()
    ensures step { (old new : SeenNodes) (i : ℕ) (told : Told) → HasStepped old new i told → (j : ℕ) → IsIdleAt old j → IsIdleAt new j }
    ensures step_keeps { (old new : SeenNodes) (i : ℕ) (told : Told) → HasStepped old new i told
        → (j : ℕ) → IsIdleAt old j → KeepsNoneAt old j → KeepsNoneAt new j }
    ensures ready { (old new : SeenNodes) (i : ℕ) → IsReadied old new i → (j : ℕ) → IsIdleAt old j → IsIdleAt new j }
    ensures ready_keeps { (old new : SeenNodes) (i : ℕ) → IsReadied old new i → (j : ℕ) → KeepsNoneAt old j → KeepsNoneAt new j }
{}

/// Whatever a client does, or is given, the others are as they were.
pub fn others_stay()
    ensures step { (old new : SeenNodes) (i : ℕ) (told : Told) → HasStepped old new i told → OthersStay old new i }
    ensures ready { (old new : SeenNodes) (i : ℕ) → IsReadied old new i → OthersStay old new i }
    ensures with_client { (n : SeenNodes) (i : ℕ) (c : SeenClient) → OthersStay n (with_client n i c) i }
{}

/// The sizes of a system stay, and so does the number of its clients.
pub fn sizes_stay()
    ensures step { (old new : SeenNodes) (i : ℕ) (told : Told) → HasStepped old new i told → SizesStay old new }
    ensures ready { (old new : SeenNodes) (i : ℕ) → IsReadied old new i → SizesStay old new }
    ensures with_client { (n : SeenNodes) (i : ℕ) (c : SeenClient) → SizesStay n (with_client n i c) }
{}
