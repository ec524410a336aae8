ghost use Rattle.std.specs.Prelude.{◌≡◌, ℕ, ◌<◌, ◌≤◌, List, [], ◌∷◌, Some, None};
ghost use Rattle.zb_types.specs.declared.ids.Fid.{Fid};
ghost use Rattle.zb_types.specs.declared.calls.Call.TheVariants.{Read};
ghost use Rattle.zb_types.specs.declared.calls.Reply.{Reply};
ghost use Rattle.zb_types.specs.declared.tables.Found.{Found};
ghost use Rattle.zb_types.specs.Keyed.{look};
ghost use Rattle.zb_types.specs.Tree.{Tree};
ghost use Rattle.zb_types.specs.Apply.{max_file, reply_to};
ghost use Rattle.zb_tables.specs.Tables.{Contents};
ghost use Rattle.zb_sound.specs.LookupsCurrent.{AreFetched, ShowsFile};
ghost use Rattle.zb_basis.specs.declared.basis.Basis.{Basis};
ghost use Rattle.zb_basis.specs.Looking.{ask_of};
ghost use Rattle.zb_basis.specs.Reading.{IsReadReply};
ghost use Rattle.zb_forming_laws.specs.Resting.{pairs_of};

/// A read is answered as the plain tree answers it, where its lookup shows the tree's file, or found none and the tree
/// has none, and the blocks that it fetched are those that their pointers name.
pub fn read_replies_are_the_files()
    ensures shown { (b : ℕ) (contents : Contents) (basis : Basis) (found : Found) (fid : Fid) (offset len : ℕ) (bytes : List ℕ) (tree : Tree) (reply : Reply)
        → 0 < b → basis.found ≡ found ∷ [] → AreFetched contents (pairs_of basis.fetched) → IsReadReply b basis (Read fid offset len) reply
        → 1 ≤ found.version → found.length ≤ max_file
        → ShowsFile b contents (ask_of b (Read fid offset len)).first (ask_of b (Read fid offset len)).count found bytes
        → look fid.0 tree.files ≡ Some bytes → reply ≡ reply_to tree (Read fid offset len) }
    ensures gone { (b : ℕ) (contents : Contents) (basis : Basis) (found : Found) (fid : Fid) (offset len : ℕ) (tree : Tree) (reply : Reply)
        → basis.found ≡ found ∷ [] → AreFetched contents (pairs_of basis.fetched) → IsReadReply b basis (Read fid offset len) reply
        → found.version ≡ 0 → look fid.0 tree.files ≡ None → reply ≡ reply_to tree (Read fid offset len) }
{}
