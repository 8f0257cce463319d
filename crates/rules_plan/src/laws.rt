// Laws of plans: each is the contract of a function that does nothing.
ghost use Rattle.rules_plan.specs.Within.{LowerAreWithin};

/// A form that is small enough at a budget is so at each lower one.
pub fn lower_are_within()
    ensures { LowerAreWithin }
{}
