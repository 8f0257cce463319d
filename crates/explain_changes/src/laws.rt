// Laws of changes: each is the contract of a function that does nothing.
ghost use Rattle.explain_changes.specs.Example.{Examples};
ghost use Rattle.explain_changes.specs.Laws.{OnlySitesChange, RebuildingKeeps, WrittenKeeps};

/// A program in which no site is chosen is as it was.
#[tactic(auto, using(crate::proofs::Only::only_sites_change))]
pub fn only_sites_change()
    ensures { OnlySitesChange }
{}

/// Where values are built again from their parts, runs give the same at the same ticks.
pub fn rebuilding_keeps()
    ensures { RebuildingKeeps }
{}

/// So do those of a program that is found to be the changed one.
#[tactic(auto, using(crate::proofs::Keep::written_keeps))]
pub fn written_keeps()
    ensures { WrittenKeeps }
{}

/// Small programs have the sites that were worked out by hand, and are changed so.
pub fn small_examples()
    ensures { Examples }
{}
