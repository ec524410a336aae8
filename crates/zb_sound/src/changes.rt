ghost use Rattle.std.specs.Prelude.{◌≡◌, ◌⊎◌, ℕ, [], true, false, IfSome, Option};
ghost use Rattle.zb_types.specs.declared.ids.LogId.{LogId};
ghost use Rattle.zb_types.specs.declared.ids.ServerId.{ServerId};
ghost use Rattle.zb_types.specs.declared.nodes.Members.{Members};
ghost use Rattle.zb_types.specs.declared.nodes.State.TheVariants.{Whole, Out, Mending};
ghost use Rattle.zb_types.specs.Tree.{Tree};
ghost use Rattle.zb_stripe_laws.specs.PartAtWork.{HasNoEmptyShare};
ghost use Rattle.zb_entries.specs.declared.entry.Entry.TheVariants.{Attach, Mark, Retire};
ghost use Rattle.zb_tables.specs.Tables.{Contents, SameIn, Tables};
ghost use Rattle.zb_tables.specs.Fold.{after_retire, attached, with_members};
ghost use Rattle.zb_tables.specs.Replay.{Platter, with_entry};
ghost use Rattle.zb_tables.specs.Taking.{CanTake, IsServer, Sizes};
ghost use Rattle.zb_recovery.specs.Missing.{Servers, is_unfit};
ghost use Rattle.zb_recovery.specs.Agreeing.{ViewAgrees};
ghost use Rattle.zb_sound.specs.Standing.{StandFor, seen};
ghost use Rattle.zb_sound.specs.Changing.{OthersFit, OthersSame};

/// What stands for a tree does so with each contents that agree on what is committed.
pub fn contents_may_grow()
    ensures { (z : Sizes) (contents new : Contents) (p : Platter) (st : Servers) (tables : Tables) (tree : Tree)
        → StandFor z contents p st tables tree
        → SameIn tables.held contents new → StandFor z new p st tables tree }
{}

/// Entries that aren't commits, a checkpoint, and whatever becomes of one server that isn't fit, leave what the
/// platters stand for.
pub fn changes_keep()
    ensures attach { (z : Sizes) (contents : Contents) (p : Platter) (st : Servers) (tables : Tables) (tree : Tree) (owner : ℕ) (log : LogId)
        → StandFor z contents p st tables tree
        → CanTake z p tables (Attach owner log) → StandFor z contents (with_entry p (Attach owner log)) st (attached tables owner log) tree }
    ensures mark { (z : Sizes) (contents : Contents) (p : Platter) (st : Servers) (tables : Tables) (tree : Tree) (members : Members) (a : ServerId)
        → StandFor z contents p st tables tree
        → CanTake z p tables (Mark members)
        → IsServer z.servers a → (members.state ≡ Out a) ⊎ (members.state ≡ Mending a)
        → OthersFit z tables.members st a
        → StandFor z contents (with_entry p (Mark members)) st (with_members tables members) tree }
    ensures retire { (z : Sizes) (contents : Contents) (p : Platter) (st : Servers) (tables : Tables) (tree : Tree) (log : LogId) (stripe : ℕ)
        → StandFor z contents p st tables tree
        → CanTake z p tables (Retire log stripe)
        → StandFor z contents (with_entry p (Retire log stripe)) st (after_retire tables log stripe) tree }
    ensures checkpoint { (z : Sizes) (contents : Contents) (p : Platter) (st : Servers) (tables : Tables) (tree : Tree)
        → StandFor z contents p st tables tree
        → StandFor z contents (record { tables = tables; entries = [] }) st tables tree }
    ensures away { (z : Sizes) (contents : Contents) (p : Platter) (st new : Servers) (tables : Tables) (tree : Tree) (a : ServerId)
        → StandFor z contents p st tables tree
        → IsServer z.servers a → is_unfit tables.members new.blank a ≡ true → OthersFit z tables.members st a
        → OthersSame st new a → HasNoEmptyShare new.maps
        → StandFor z contents p new tables tree }
{}

/// A rebuild's finish leaves what the platters stand for, where no server is blank and each held stripe stands
/// whichever is missing.
pub fn finish_keeps()
    ensures { (z : Sizes) (contents : Contents) (p : Platter) (st : Servers) (tables : Tables) (tree : Tree) (members : Members)
        → StandFor z contents p st tables tree
        → CanTake z p tables (Mark members)
        → members.state ≡ Whole → ((t : ServerId) → IsServer z.servers t → st.blank t ≡ false)
        → ((x : Option ServerId) → IfSome x (IsServer z.servers) → ViewAgrees (seen z st x) contents tables.held)
        → StandFor z contents (with_entry p (Mark members)) st (with_members tables members) tree }
{}
