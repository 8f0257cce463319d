// Laws of the maps: each is the contract of a function that does nothing.
ghost use Rattle.index_shift.specs.Contexts.{PotentialSplits, PermutingKeeps};
ghost use Rattle.index_shift.specs.Example.{Examples};
ghost use Rattle.index_shift.specs.Laws.{EntriesAreBetween, OpeningKeeps, LeavingKeeps, LeavingKeepsZero, LeavingLowers, SharingKeeps};

/// The entries of each map go from positions of one context to positions of the other.
#[tactic(auto, using(crate::proofs::Between::entries_are_between))]
pub fn entries_are_between()
    ensures { EntriesAreBetween }
{}

/// Where a variable is taken apart, the potential stays.
#[tactic(auto, using(crate::proofs::Kept::opening_keeps))]
pub fn opening_keeps()
    ensures { OpeningKeeps }
{}

/// Where an empty variable leaves, the potential stays.
#[tactic(auto, using(crate::proofs::Kept::leaving_keeps))]
pub fn leaving_keeps()
    ensures { LeavingKeeps }
{}

/// Where any variable leaves, what its zero index was worth stays.
pub fn leaving_keeps_zero()
    ensures { LeavingKeepsZero }
{}

/// Where any variable leaves, the potential does not rise.
pub fn leaving_lowers()
    ensures { LeavingLowers }
{}

/// Where a variable is shared, the potential stays.
pub fn sharing_keeps()
    ensures { SharingKeeps }
{}

/// Potential splits over some of the variables and the others.
#[tactic(auto, using(crate::proofs::Split::potential_splits))]
pub fn potential_splits()
    ensures { PotentialSplits }
{}

/// Where a context is put in another order, the potential stays.
#[tactic(auto, using(crate::proofs::Permuted::permuting_keeps))]
pub fn permuting_keeps()
    ensures { PermutingKeeps }
{}

/// Small maps are what was worked out by hand.
pub fn small_examples()
    ensures { Examples }
{}
