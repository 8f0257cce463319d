// Laws of sizes: each is the contract of a function that does nothing.
ghost use Rattle.explain_sizes.specs.Laws.{IsWorthAtExactSizes, BoundsWorthWithinSizes, SizesAreMet, RisesWithSizes};
ghost use Rattle.explain_sizes.specs.Example.{Examples};

/// A polynomial at sizes is its worth where each list has exactly its size.
pub fn is_worth_at_exact_sizes()
    ensures { IsWorthAtExactSizes }
{}

/// It is at least the worth at every value of at most these sizes.
pub fn bounds_worth_within_sizes()
    ensures { BoundsWorthWithinSizes }
{}

/// Some value has exactly the sizes.
pub fn sizes_are_met()
    ensures { SizesAreMet }
{}

/// A polynomial is no less at greater sizes.
pub fn rises_with_sizes()
    ensures { RisesWithSizes }
{}

/// Small sizes count what was worked out by hand.
pub fn small_examples()
    ensures { Examples }
{}
