// Laws: each is the contract of a function that does nothing.
ghost use Rattle.explain_faults.specs.Example.{Examples};
ghost use Rattle.explain_faults.specs.Laws.{FirstIsRefused};

/// A first fault stands where `raml` says.
pub fn first_is_refused()
    ensures { FirstIsRefused }
{}

/// Small changes are what was worked out by hand.
pub fn small_examples()
    ensures { Examples }
{}
