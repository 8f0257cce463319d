// Laws: each is the contract of a function that does nothing.
ghost use Rattle.explain_reading.specs.Example.{Examples};
ghost use Rattle.explain_reading.specs.Laws.{LegendSuffices};

/// Small bounds in algebra are what was worked out by hand.
pub fn small_examples()
    ensures { Examples }
{}

/// What the legend leaves out does not occur.
pub fn legend_suffices()
    ensures { LegendSuffices }
{}
