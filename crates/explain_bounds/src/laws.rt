// Laws: each is the contract of a function that does nothing.
ghost use Rattle.explain_bounds.specs.Example.{Examples};
ghost use Rattle.explain_bounds.specs.Written.{FindingsCanBeTold};

/// What analyses find of functions can be told.
pub fn findings_can_be_told()
    ensures { FindingsCanBeTold }
{}

/// Small lines are what was worked out by hand.
pub fn small_examples()
    ensures { Examples }
{}
