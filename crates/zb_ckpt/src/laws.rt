ghost use Rattle.zb_ckpt.specs.Laws.{DependsOnCellAndPages, ForeignOnce, SaysNoForeign, SaysOne};

/// An image says one root, and the bytes of one checkpoint.
pub fn an_image_says_one_checkpoint()
    ensures { SaysOne }
{}

/// An image is foreign in one field, and in none where it says a root.
pub fn an_image_is_foreign_in_one_field()
    ensures once { ForeignOnce }
    ensures none { SaysNoForeign }
{}

/// What stands between the root cell and the pages is none of the checkpoint's business.
pub fn a_checkpoint_depends_on_its_cell_and_pages()
    ensures { DependsOnCellAndPages }
{}
