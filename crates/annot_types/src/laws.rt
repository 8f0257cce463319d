// Laws of the rules and of certificates: each is the contract of a function that does nothing.
ghost use Rattle.annot_types.specs.Example.{Examples};
ghost use Rattle.annot_types.specs.Laws.{MultiplesHold, RaisingKeeps, SolvedBlocksHold};
ghost use Rattle.annot_types.specs.SystemExample.{SystemExamples};

/// A block that holds with a number holds with its multiples.
pub fn multiples_hold()
    ensures { MultiplesHold }
{}

/// What holds still holds where the blocks of a meter and its scale are raised.
#[tactic(auto, using(crate::proofs::Multiples::raising_keeps))]
pub fn raising_keeps()
    ensures { RaisingKeeps }
{}

/// Each solved block of a certificate that is held holds over the blocks before it.
#[tactic(auto, using(crate::proofs::Multiples::solved_blocks_hold))]
pub fn solved_blocks_hold()
    ensures { SolvedBlocksHold }
{}

/// Small certificates are held, or not, as it was worked out.
pub fn small_certificates()
    ensures { Examples }
{}

/// The systems of small tasks are as they were worked out.
#[tactic(auto, using(crate::proofs::Systems::systems_hold))]
pub fn small_systems()
    ensures { SystemExamples }
{}
