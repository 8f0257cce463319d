// Laws: each is the contract of a function that does nothing.
ghost use Rattle.bound_compare.specs.Laws.{RelationsAreOne, RelationIsFound, RelationsPromise, DivisionIsExact, PowersKeepWorth};
ghost use Rattle.bound_compare.specs.Laws.{FitsOrLeaves, ExponentsAreOrdered, PowersAreOne, PowersAreThese};
ghost use Rattle.bound_compare.specs.Example.{Examples};

/// Two polynomials stand in one relation.
#[tactic(auto, using(crate::proofs::Decided::relations_are_one))]
pub fn relations_are_one()
    ensures { RelationsAreOne }
{}

/// It is found by looking at the terms of both.
#[tactic(auto, using(crate::proofs::Decided::relation_is_found))]
pub fn relation_is_found()
    ensures { RelationIsFound }
{}

/// Where a polynomial is equal to another one or below it, it is worth no more at any arguments.
#[tactic(auto, using(crate::proofs::Worths::relations_promise))]
pub fn relations_promise()
    ensures { RelationsPromise }
{}

/// The factorials in a power form divide without a rest.
#[tactic(auto, using(crate::proofs::Counts::division_is_exact))]
pub fn division_is_exact()
    ensures { DivisionIsExact }
{}

/// The powers of a flat function's polynomial are worth what it is, at the element counts of any
/// arguments.
#[tactic(auto, using(crate::proofs::Kept::powers_keep_worth))]
pub fn powers_keep_worth()
    ensures { PowersKeepWorth }
{}

/// What fits does not leave.
#[tactic(auto, using(crate::proofs::Made::fits_or_leaves))]
pub fn fits_or_leaves()
    ensures { FitsOrLeaves }
{}

/// Exponents are ordered as the tuples that pick so many elements of lists.
#[tactic(auto, using(crate::proofs::Ranked::exponents_are_ordered))]
pub fn exponents_are_ordered()
    ensures { ExponentsAreOrdered }
{}

/// A sum of terms has its powers once.
pub fn powers_are_one()
    ensures { PowersAreOne }
{}

/// They are found by going through the exponents of the parameters.
pub fn powers_are_these()
    ensures { PowersAreThese }
{}

/// Small coefficients and powers are what was worked out by hand.
pub fn small_examples()
    ensures { Examples }
{}
