// Laws of amortised bounds: each is the contract of a function that does nothing.
ghost use Rattle.rules_soundness_laws.specs.Example.{Examples};
ghost use Rattle.rules_soundness_laws.specs.Laws.{FormsPay, NormalRunsAreBounded, SourcesAreBounded, LinesAreTrue, CellsStayBelow};

/// Where a form fits the rules over a block, potential pays for its runs.
pub fn forms_pay()
    ensures { FormsPay }
{}

/// The argument annotation of a block with cost bounds the runs of the function's normal form.
pub fn normal_runs_are_bounded()
    ensures { NormalRunsAreBounded }
{}

/// It bounds the runs of the source's function, and the machine that runs it.
pub fn sources_are_bounded()
    ensures { SourcesAreBounded }
{}

/// Each polynomial in the lines of a held certificate is a bound.
pub fn lines_are_true()
    ensures { LinesAreTrue }
{}

/// Under a bound of cells the machine never has more cells than its whole part.
pub fn cells_stay_below()
    ensures { CellsStayBelow }
{}

/// The certificate of a small program bounds its cells and its ticks, as it was worked out.
pub fn small_bounds()
    ensures { Examples }
{}
