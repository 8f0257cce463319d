// Laws of indices and of base polynomials: each is the contract of a function that does nothing.
ghost use Rattle.base_poly.specs.Laws.{IndicesAreListed, LowerStandFirst, TuplesAreOrdered, TypesHaveZero, BaseByValue, BinomialsAreBase};
ghost use Rattle.base_poly.specs.Laws.{BaseIsBounded};
ghost use Rattle.base_poly.specs.Example.{Examples};

/// The tuples of a context up to a degree have one list in order.
#[tactic(auto, using(crate::proofs::Only::indices_are_listed))]
pub fn indices_are_listed()
    ensures { IndicesAreListed }
{}

/// The list of a lower degree is the front of that of a higher one.
#[tactic(auto, using(crate::proofs::Front::lower_stand_first))]
pub fn lower_stand_first()
    ensures { LowerStandFirst }
{}

/// The code's order of tuples is that of the lists, where degrees fit 32 bits.
#[tactic(auto, using(crate::proofs::Capped::tuples_are_ordered))]
pub fn tuples_are_ordered()
    ensures { TuplesAreOrdered }
{}

/// Each type has one index of degree 0, which counts 1 at every value.
pub fn types_have_zero()
    ensures { TypesHaveZero }
{}

/// Base polynomials by recursion on the value.
#[tactic(auto, using(crate::proofs::Recursion::by_value))]
pub fn base_by_value()
    ensures { BaseByValue }
{}

/// On integers a list index is a binomial coefficient.
#[tactic(auto, using(crate::proofs::Recursion::binomials))]
pub fn binomials()
    ensures { BinomialsAreBase }
{}

/// Base polynomials are bounded by powers of the number of cells.
#[tactic(auto, using(crate::proofs::Bounded::bounded))]
pub fn base_is_bounded()
    ensures { BaseIsBounded }
{}

/// Small indices, sums and products are what was worked out by hand.
pub fn small_examples()
    ensures { Examples }
{}
