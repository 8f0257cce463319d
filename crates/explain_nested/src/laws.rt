// Laws: each is the contract of a function that does nothing.
ghost use Rattle.explain_nested.specs.Example.{Examples};
ghost use Rattle.explain_nested.specs.Laws.{MeansWhatCounts, NamesSuffice};

/// A reading means what the base polynomial counts.
pub fn means_what_counts()
    ensures { MeansWhatCounts }
{}

/// There are letters enough.
pub fn names_suffice()
    ensures { NamesSuffice }
{}

/// Small bounds are what was worked out by hand.
pub fn small_examples()
    ensures { Examples }
{}
