// Laws of origins: each is the contract of a function that does nothing.
ghost use Rattle.explain_origins.specs.Fits.{OriginsFit};
ghost use Rattle.explain_origins.specs.Walked.{WalksLeadToOrigins};

/// Each form of a function's normal form stands for an expression of its kind.
pub fn origins_fit()
    ensures { OriginsFit }
{}

/// All that a walk finds in a function is found at forms that stand for expressions.
pub fn walks_lead_to_origins()
    ensures { WalksLeadToOrigins }
{}
