ghost use Rattle.zb_cell.specs.Cell.{DependsOnItsBytes};

/// The value of a cell depends on its 128 bytes alone.
pub fn cell_depends_on_its_bytes()
    ensures { DependsOnItsBytes }
{}
