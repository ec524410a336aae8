ghost use Rattle.std.specs.Prelude.{◌≡◌};
ghost use Rattle.zb_manager.specs.Seen.{held_by};
ghost use Rattle.zb_turns.specs.Turns.{other_holder};

use zb_manager::Manager;

/// The other client that holds the file manager.
pub(crate) fn other_holder(manager: &Manager, client: u8) -> Option<u8>
    ensures { result ≡ other_holder client manager.now.holder }
{
    match manager.holder() {
        Some(holder) if holder != client => Some(holder),
        _ => None,
    }
}

/// A client whose batch can't go on doesn't hold any longer. Where another holds, or nobody, nothing changes.
pub fn give_up(manager: &mut Manager, client: u8)
    ensures { manager.new ≡ held_by (other_holder client manager.old.holder) manager.old }
{
    if other_holder(manager, client).is_none() {
        manager.release();
    }
}
