// Laws: each is the contract of a function that does nothing.
ghost use Rattle.rules_walk.specs.Laws.{WalksWithoutCost};

/// Where no prices are paid, a walk reads no signature that pays.
pub fn walks_without_cost()
    ensures { WalksWithoutCost }
{}
