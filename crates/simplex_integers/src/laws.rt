// Laws of whole numbers: each is the contract of a function that does nothing.
ghost use Rattle.simplex_integers.specs.Laws.{LeastDenominators, RefusedEntriesLeave};

/// The least denominator that serves is the least common multiple.
pub fn least_denominators()
    ensures { LeastDenominators }
{}

/// An entry that is refused leaves 128 bits, whatever whole numbers the fractions are taken to.
pub fn refused_entries_leave()
    ensures { RefusedEntriesLeave }
{}
