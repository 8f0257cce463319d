// Laws: each is the contract of a function that does nothing.
ghost use Rattle.explain_verdicts.specs.Laws.{LinesHaveFractions};

/// What a line declares are fractions at tuples, each once.
pub fn lines_have_fractions()
    ensures { LinesHaveFractions }
{}
