// Small programs, as the contract of a function that does nothing.
ghost use Rattle.explain_regions.specs.Example.{Examples};

/// A small program has the regions, the lines and the edits that were worked out by hand.
#[tactic(auto, using(crate::proofs::Computed::examples_hold))]
pub fn small_examples()
    ensures { Examples }
{}
