ghost use Rattle.std.specs.Prelude.{◌≡◌, ◌<◌, ℕ, [], length, option_map, slice_get, None, Some};
ghost use Rattle.zb_types.specs.declared.lines.Kind.TheVariants.{Idle};
ghost use Rattle.zb_client.specs.Seen.{SeenClient, kind_of};
ghost use Rattle.zb_system.specs.Nodes.{IsClient, SeenNodes};
ghost use Rattle.zb_finishing.specs.Clients.{AllIdle, AllKeepNone, IsIdleAt, KeepsNoneAt};

/// Which clients are idle is seen by the kinds of their next steps; one that is idle has no work, and no call in its queue. What is
/// so with each client that is there is so with all.
pub fn clients_are_seen()
    ensures idle { (n : SeenNodes) (i : ℕ) → option_map kind_of (slice_get n.clients i) ≡ Some Idle → IsIdleAt n i }
    ensures kind { (n : SeenNodes) (i : ℕ) → i < length n.clients → IsIdleAt n i → option_map kind_of (slice_get n.clients i) ≡ Some Idle }
    ensures rests { (c : SeenClient) → kind_of c ≡ Idle → (c.task ≡ None) × (c.queue ≡ []) }
    ensures none_kept { (n : SeenNodes) (i : ℕ) → ((c : SeenClient) → IsClient n i c → 0 < length c.kept → ⊥) → KeepsNoneAt n i }
    ensures all_idle { (n : SeenNodes) → ((i : ℕ) → i < length n.clients → IsIdleAt n i) → AllIdle n }
    ensures all_keep_none { (n : SeenNodes) → ((i : ℕ) → i < length n.clients → KeepsNoneAt n i) → AllKeepNone n }
{}
