//! Sparse rows of linear inequalities over unknowns that are not negative, and systems of them.
#![tactic(auto)]

ghost use Rattle.linear_rows.specs.Laws.{RefutedHasNoSolution, ProvedIsLeast, ProportionsAgree};

mod row;
mod system;

pub use row::{LeavesRow, Row, RowFault};
pub use system::System;

/// A system that a vector refutes has no solution.
pub fn refuted_has_no_solution()
    ensures { RefutedHasNoSolution }
{}

/// A solution is least where a dual solution over the same number has the same sum.
pub fn proved_is_least()
    ensures { ProvedIsLeast }
{}

/// What solves, proves or refutes over one number, does so in proportion over every other.
pub fn proportions_agree()
    ensures { ProportionsAgree }
{}
