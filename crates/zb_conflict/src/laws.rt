ghost use Rattle.std.specs.Prelude.{◌≡◌, Option};
ghost use Rattle.zb_types.specs.Keyed.{look};
ghost use Rattle.zb_delta.specs.declared.delta.Body.{Body};
ghost use Rattle.zb_delta.specs.declared.delta.Delta.TheVariants.{Clean};
ghost use Rattle.zb_tables.specs.Tables.{FileState};
ghost use Rattle.zb_tables.specs.Fold.{is_movable};
ghost use Rattle.zb_pointers.specs.Seen.{blocks_of, seen_head};
ghost use Rattle.zb_conflict.specs.Table.{decided, is_set};

/// An entry of the journal moves a block in the tables exactly where the conflict table sets it.
pub fn table_moves_blocks()
    ensures { (body : Body) (file : Option FileState) → is_movable body file ≡ is_set (decided (Clean body) (seen_head file) (look body.block (blocks_of file))) }
{}
