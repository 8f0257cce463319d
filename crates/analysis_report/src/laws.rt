// Laws of limits and of bounds: each is the contract of a function that does nothing.
ghost use Rattle.analysis_report.specs.Limits.{NeverAsks, NeverFull, NeverStopped};
ghost use Rattle.analysis_report.specs.Tuples.{BoundsAreOfParameters};

/// With at least the whole part of a bound of cells as limit, no state of the machine asks for a cell too
/// many.
pub fn never_asks()
    ensures { NeverAsks }
{}

/// So a machine that runs never ends for want of a cell.
pub fn never_full()
    ensures { NeverFull }
{}

/// With at least four times the whole part of a bound of work as steps, it is never stopped.
pub fn never_stopped()
    ensures { NeverStopped }
{}

/// The bounds of a held certificate are over tuples of the function's parameters, of at most its degree.
pub fn bounds_are_of_parameters()
    ensures { BoundsAreOfParameters }
{}
