// Worked examples: the contract of a function that does nothing.
ghost use Rattle.explain_uses.specs.Example.{Examples};

/// Small programs have the later uses that were worked out by hand.
pub fn small_examples()
    ensures { Examples }
{}
