ghost use Rattle.zb_journal.specs.Laws.{BadOnce, CutSays, DependsOnItsBytes, SaysNoBad, SaysOne};

/// An image says one list of entries from a number on, and one place where it goes on.
pub fn an_image_says_one_journal()
    ensures { SaysOne }
{}

/// An image that says a journal has no bad entry in it, and one that has some has its first at one place.
pub fn a_bad_entry_stands_in_no_journal()
    ensures once { BadOnce }
    ensures none { SaysNoBad }
{}

/// From its next number on, a journal has no entries.
pub fn a_cut_journal_is_empty()
    ensures { CutSays }
{}

/// The entries of a journal depend on its bytes alone.
pub fn a_journal_depends_on_its_bytes()
    ensures { DependsOnItsBytes }
{}
