// Laws: each is the contract of a function that does nothing.
ghost use Rattle.explain_at.specs.Example.{Examples};
ghost use Rattle.explain_at.specs.Laws.{OpenAsAsked};

/// As many sizes are open as are not given: none, or one.
pub fn open_as_asked()
    ensures { OpenAsAsked }
{}

/// Small words ask for the sizes that were worked out by hand.
pub fn small_examples()
    ensures { Examples }
{}
