// Worked examples: the contract of a function that does nothing.
ghost use Rattle.explain_rounds.specs.Example.{Examples};

/// Small programs have the calls that were worked out by hand.
pub fn small_examples()
    ensures { Examples }
{}
