// Laws of lines: each is the contract of a function that does nothing.
ghost use Rattle.explain_lines.specs.Laws.{GroupsStayMended, MendedLinesHaveBounds};

/// A change has bounds of all lines that it mends.
pub fn mended_lines_have_bounds()
    ensures { MendedLinesHaveBounds }
{}

/// A group that a change mends stays mended by each other change that has bounds of these lines.
pub fn groups_stay_mended()
    ensures { GroupsStayMended }
{}
