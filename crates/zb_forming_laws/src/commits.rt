ghost use Rattle.std.specs.Prelude.{◌≡◌, ℕ, ◌<◌, List, Ok};
ghost use Rattle.zb_types.specs.declared.nodes.Members.{Members};
ghost use Rattle.zb_types.specs.Tree.{Tree};
ghost use Rattle.zb_log.specs.Logs.{AreGiven, SeenLog};
ghost use Rattle.zb_entries.specs.declared.entry.Entry.TheVariants.{Commit};
ghost use Rattle.zb_tables.specs.Tables.{Contents, Tables};
ghost use Rattle.zb_tables.specs.Fold.{Shelf, committed, done_ops, shelf_of};
ghost use Rattle.zb_tables.specs.Replay.{Platter, with_entry};
ghost use Rattle.zb_tables.specs.Shown.{replies_through, tree_through};
ghost use Rattle.zb_tables.specs.Taking.{Sizes};
ghost use Rattle.zb_recovery.specs.Missing.{Servers};
ghost use Rattle.zb_sound.specs.Standing.{StandFor};
ghost use Rattle.zb_sound.specs.Committing.{IsFlushed};
ghost use Rattle.zb_sound.specs.LookupsCurrent.{AreFetched};
ghost use Rattle.zb_basis.specs.declared.calls.Numbered.{Numbered};
ghost use Rattle.zb_basis.specs.declared.basis.Basis.{Basis};
ghost use Rattle.zb_basis.specs.declared.basis.Formed.{Formed};
ghost use Rattle.zb_basis.specs.Forming.{IsFormed};
ghost use Rattle.zb_basis.specs.Runs.{run_of};
ghost use Rattle.zb_forming_laws.specs.Flushing.{contents_with};
ghost use Rattle.zb_forming_laws.specs.Resting.{AreCurrent, AreShort, pairs_of, updates_of};

/// The commit of a formed batch takes the tree to the tree after its calls, with the plain tree's replies, once the batch
/// is flushed and where its lookups and fetched blocks are current.
pub fn formed_commits_take_the_tree()
    ensures { (z : Sizes) (contents : Contents) (p : Platter) (st : Servers) (tables : Tables) (tree : Tree) (log : SeenLog) (number generation : ℕ) (members : Members)
        (kept calls : List Numbered) (basis : Basis) (formed : Formed) (given : List ℕ)
        → (is : IsFormed z.servers z.fragment z.block log number members calls basis formed) → AreGiven log given → calls ≡ run_of kept
        → 0 < z.block → StandFor z contents p st tables tree
        → AreShort calls → AreCurrent z.block (contents_with contents log given formed is.blocks) tables calls basis.found
        → AreFetched (contents_with contents log given formed is.blocks) (pairs_of basis.fetched)
        → IsFlushed z contents (contents_with contents log given formed is.blocks) st tables log.log number generation formed.sealed.placed.pieces formed.sealed.batch
        → (after : Shelf) × (done_ops z.block formed.sealed.batch.ops (shelf_of tables) ≡ Ok after)
        × (after.replies ≡ replies_through tree (updates_of calls))
        × StandFor z (contents_with contents log given formed is.blocks) (with_entry p (Commit log.log number generation formed.sealed.placed.pieces)) st
        (committed tables log.log number formed.sealed.placed.pieces after) (tree_through tree (updates_of calls)) }
{}
