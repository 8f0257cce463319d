// Laws: each is the contract of a function that does nothing.
ghost use Rattle.explain_words.specs.Example.{Examples};
ghost use Rattle.explain_words.specs.Laws.{AskedIsInRange};

/// Small words spell what was worked out by hand.
pub fn small_examples()
    ensures { Examples }
{}

/// What words ask for is in range.
#[tactic(auto, using(crate::proofs::Ranges::asked_is_in_range))]
pub fn asked_is_in_range()
    ensures { AskedIsInRange }
{}
