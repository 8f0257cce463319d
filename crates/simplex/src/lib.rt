//! Exact linear programming over fractions, by the simplex method.
//!
//! The rows of the tableau and its gains are sparse rows of fractions. Beside them stand, for each column,
//! marks at the blocks of rows that may have a number there, so that a step looks at no others, and its gain
//! in the place of the column, for the rule. `specs/` says what the rows stand for, and what each answer
//! tells. The laws here say that a step which is made is a step of a lawful course, and that one which is not
//! made is refused there. Solving ends with every rule that chooses columns with gain, since no basis comes
//! twice.
#![tactic(auto)]

ghost use Rattle.simplex.specs.Laws.{StepsAreLawful, PivotFaultsAreRefused, SearchFaultsAreRefused};

mod answer;
mod chooser;
mod covering;
mod exiting;
mod fault;
mod opening;
mod pivot;
mod reading;
mod solver;
mod table;

pub use answer::{Answer, Within};
pub use chooser::Chooser;
pub use solver::{agree, solve, solve_within};

/// A pivot that is made is one of a lawful course.
pub fn steps_are_lawful()
    ensures { StepsAreLawful }
{}

/// A pivot that is not made is refused.
pub fn pivot_faults_are_refused()
    ensures { PivotFaultsAreRefused }
{}

/// A search for the leaving row that finds none is refused.
pub fn search_faults_are_refused()
    ensures { SearchFaultsAreRefused }
{}
