ghost use Rattle.std.specs.Prelude.{◌≢◌, ℕ, List, Option, None};
ghost use Rattle.zb_types.specs.declared.ids.LogId.{LogId};
ghost use Rattle.zb_types.specs.declared.ids.Piece.{Piece};
ghost use Rattle.zb_types.specs.declared.nodes.Members.{Members};
ghost use Rattle.zb_tables.specs.Tables.{Tables};
ghost use Rattle.zb_tables.specs.Fold.{Shelf, after_retire, attached, committed, last_of, with_members};
ghost use Rattle.zb_sound.specs.Owning.{LogIs};

/// An owner's log from its attach on: its own commits give it their numbers and stripes; commits of other logs, logs of
/// other owners, marks and stripes that are given up leave it.
pub fn log_of_an_owner()
    ensures begins { (t : Tables) (owner : ℕ) (log : LogId) → LogIs (attached t owner log) log owner 0 None }
    ensures commits { (t : Tables) (log : LogId) (owner batch : ℕ) (last : Option ℕ) (number : ℕ) (pieces : List Piece) (s : Shelf)
        → LogIs t log owner batch last → LogIs (committed t log number pieces s) log owner number (last_of last pieces) }
    ensures others { (t : Tables) (log : LogId) (owner batch : ℕ) (last : Option ℕ) (other : LogId) (number : ℕ) (pieces : List Piece) (s : Shelf)
        → log.0 ≢ other.0 → LogIs t log owner batch last → LogIs (committed t other number pieces s) log owner batch last }
    ensures attach { (t : Tables) (log : LogId) (owner batch : ℕ) (last : Option ℕ) (new : LogId) (who : ℕ)
        → log.0 ≢ new.0 → owner ≢ who → LogIs t log owner batch last → LogIs (attached t who new) log owner batch last }
    ensures mark { (t : Tables) (log : LogId) (owner batch : ℕ) (last : Option ℕ) (members : Members)
        → LogIs t log owner batch last → LogIs (with_members t members) log owner batch last }
    ensures retire { (t : Tables) (log : LogId) (owner batch : ℕ) (last : Option ℕ) (of : LogId) (stripe : ℕ)
        → LogIs t log owner batch last → LogIs (after_retire t of stripe) log owner batch last }
{}
