// Laws: each is the contract of a function that does nothing.
ghost use Rattle.explain_algebra.specs.Example.{Examples};
ghost use Rattle.explain_algebra.specs.Laws.{CountAsNumbers, PowersAreWorth, NoneIsUnnamed};

/// Small bounds in algebra are what was worked out by hand.
pub fn small_examples()
    ensures { Examples }
{}

/// A list or tree of numbers, truth values or pairs of these counts as one of numbers does.
pub fn count_as_numbers()
    ensures { CountAsNumbers }
{}

/// The powers of a polynomial over shallow parameters keep its worth.
pub fn powers_are_worth()
    ensures { PowersAreWorth }
{}

/// Each of these powers stands at sizes that have names.
pub fn none_is_unnamed()
    ensures { NoneIsUnnamed }
{}
