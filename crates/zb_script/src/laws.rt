ghost use Rattle.zb_script.specs.Laws.{LinesHaveNoEnd, HeadersHaveNoEnd};

/// No line end stands within a line, so a script is cut into its lines at its line ends.
pub fn lines_have_no_end()
    ensures { LinesHaveNoEnd }
{}

/// No line end stands within a header.
pub fn headers_have_no_end()
    ensures { HeadersHaveNoEnd }
{}
