// Laws of prices: each is the contract of a function that does nothing.
ghost use Rattle.price_file.specs.Laws.{AppliedCostsPrices, NodesArePaid, AppliedKeepsPrograms};
ghost use Rattle.price_file.specs.Example.{Examples};

/// A program in which prices are written out as ticks costs what the program costs under the prices.
pub fn applied_costs_prices()
    ensures { AppliedCostsPrices }
{}

/// A node costs its price at the least, also where it is cut.
pub fn nodes_are_paid()
    ensures { NodesArePaid }
{}

/// A program in which prices are written out is typed and within the limits where the program is, and
/// has at most twice as many nodes.
pub fn applied_keeps_programs()
    ensures { AppliedKeepsPrograms }
{}

/// Small tables, runs and programs come to what was worked out by hand.
pub fn small_prices()
    ensures { Examples }
{}
