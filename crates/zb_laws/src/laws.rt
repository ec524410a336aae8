ghost use Rattle.std.specs.Prelude.{◌≡◌, false};
ghost use Rattle.zb_laws.specs.Texts.{NoFront, FrontLines, SameLines, OneSpelling};
ghost use Rattle.zb_laws.specs.Readings.{RowsAgree, OneReading, OneStop, HeaderOrNone};
ghost use Rattle.zb_claims.specs.Script.{whole};
ghost use Rattle.zb_laws.specs.Histories.{FrontFits, TellsLegal, InOrder};
ghost use Rattle.zb_claims.specs.Runs.{usage};
ghost use Rattle.zb_laws.specs.Printed.{OneReport, TreeBeginsOtherwise, TailsDiffer, OneRun, LinesAloneDiffer, starts_line};
ghost use Rattle.zb_laws.specs.Worked.{RowsFit, WrongUnfit};

/// Each front of a report that fits is one that fits.
pub fn front_fits()
    ensures { FrontFits }
{}

/// A report that fits tells one legal history of the calls that it answers.
pub fn tells_legal()
    ensures { TellsLegal }
{}

/// Each client's updates, and its reads, are answered once and in its order.
pub fn in_order()
    ensures { InOrder }
{}

/// No text of a line is a front of another's.
pub fn no_front()
    ensures { NoFront }
{}

/// A front of a report's text that is a text of lines is that of its first lines.
pub fn front_lines()
    ensures { FrontLines }
{}

/// The bytes of a report determine its lines.
pub fn same_lines()
    ensures { SameLines }
{}

/// A spelling is that of one line of a script.
pub fn one_spelling()
    ensures { OneSpelling }
{}

/// Of two readings of the same rows one has the first rows of the other.
pub fn rows_agree()
    ensures { RowsAgree }
{}

/// The bytes of a script determine its sizes, its rows, and what follows them.
pub fn one_reading()
    ensures { OneReading whole }
{}

/// One line of a script is the first that isn't in the grammar.
pub fn one_stop()
    ensures { OneStop whole }
{}

/// A script that has a header isn't one that has none.
pub fn header_or_none()
    ensures { HeaderOrNone whole }
{}

/// Lines and a tail that starts otherwise are told apart.
pub fn one_report()
    ensures { OneReport }
{}

/// What stands behind the lines of a run, or without any, starts otherwise, whatever stands for the tree that does so.
pub fn tails_differ()
    ensures tree { TreeBeginsOtherwise }
    ensures behind_lines { TailsDiffer whole }
    ensures alone { LinesAloneDiffer whole }
    ensures usage { starts_line usage ≡ false }
{}

/// What a run prints to its end determines its lines.
pub fn one_run()
    ensures { OneRun whole }
{}

/// The worked rows fit.
pub fn rows_fit()
    ensures { RowsFit }
{}

/// Wrong reports don't fit.
pub fn wrong_unfit()
    ensures { WrongUnfit }
{}
