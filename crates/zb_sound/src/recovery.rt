ghost use Rattle.std.specs.Prelude.{◌≡◌, ◌⊎◌, ℕ, [], None, false, ◌<◌, ◌≤◌, Option, IsSomeAnd};
ghost use Rattle.zb_types.specs.declared.ids.ServerId.{ServerId};
ghost use Rattle.zb_types.specs.Tree.{Tree, first_tree};
ghost use Rattle.zb_tables.specs.Tables.{Contents, Tables, first_tables};
ghost use Rattle.zb_tables.specs.Checkpoint.{AreTables};
ghost use Rattle.zb_tables.specs.Replay.{Platter, members_after};
ghost use Rattle.zb_tables.specs.Taking.{Sizes};
ghost use Rattle.zb_recovery.specs.Missing.{Servers, MayMiss};
ghost use Rattle.zb_recovery.specs.Recovered.{Recovers};
ghost use Rattle.zb_sound.specs.Standing.{Says, StandFor, StandForEither, RecoversEither, seen};

/// What stands for a tree recovers to it and to no other, whichever server may be missing, and some server or none may.
pub fn sound_recovers()
    ensures recovers { (z : Sizes) (contents : Contents) (p : Platter) (st : Servers) (tree : Tree) (under_way : Option Tree) (x : Option ServerId)
        → StandForEither z contents p st tree under_way
        → MayMiss z.servers (members_after p.tables.members p.entries) st.blank x
        → RecoversEither z p st x tree under_way }
    ensures only { (z : Sizes) (contents : Contents) (p : Platter) (st : Servers) (tree : Tree) (under_way : Option Tree) (x : Option ServerId) (other : Tree)
        → 2 ≤ z.servers → 0 < z.fragment → StandForEither z contents p st tree under_way
        → MayMiss z.servers (members_after p.tables.members p.entries) st.blank x
        → Recovers z.block p (seen z st x) other
        → (other ≡ tree) ⊎ IsSomeAnd under_way (λ after. other ≡ after) }
    ensures some { (z : Sizes) (contents : Contents) (p : Platter) (st : Servers) (tree : Tree) (under_way : Option Tree)
        → StandForEither z contents p st tree under_way
        → (x : Option ServerId) × MayMiss z.servers (members_after p.tables.members p.entries) st.blank x }
{}

/// Formatted platters stand for the first tree.
pub fn first_platters_stand()
    ensures { (z : Sizes) (contents : Contents)
        → StandFor z contents (record { tables = first_tables; entries = [] }) (record { maps = λ s id. None; blank = λ s. false }) first_tables first_tree }
{}

/// The tables that a platter says are such as a checkpoint may have.
pub fn what_is_said_is_in_form()
    ensures { (z : Sizes) (contents : Contents) (p : Platter) (tables : Tables) (tree : Tree) → Says z contents p tables tree → AreTables z tables }
{}
