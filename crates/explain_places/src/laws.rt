// Laws of places: each is the contract of a function that does nothing.
ghost use Rattle.explain_places.specs.Example.{Examples};

/// Small texts have the places that were worked out by hand.
pub fn small_examples()
    ensures { Examples }
{}
