// Laws: each is the contract of a function that does nothing.
ghost use Rattle.explain_counts.specs.Example.{Examples};

/// Small texts are what was worked out by hand.
#[tactic(auto, using(crate::proofs::Computed::examples_hold))]
pub fn small_examples()
    ensures { Examples }
{}
