// Laws of the count program: each is the contract of a function that does nothing.
ghost use Rattle.explain_count.specs.Laws.{CountProgramsCountRounds, CountProgramsKeepPrograms};
ghost use Rattle.explain_count.specs.Example.{Examples};

/// The count program of a group comes to what the program comes to, and its ticks are the calls of
/// functions of the group.
#[tactic(auto, using(crate::proofs::CountsRounds::counts_rounds))]
pub fn count_programs_count_rounds()
    ensures { CountProgramsCountRounds }
{}

/// It is typed and within the limits where the program is, and has at most one node more for each
/// function.
pub fn count_programs_keep_programs()
    ensures { CountProgramsKeepPrograms }
{}

/// Small programs have the count programs and the rounds that were worked out by hand.
pub fn small_examples()
    ensures { Examples }
{}
