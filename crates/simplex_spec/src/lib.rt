//! The tableau of a system of linear inequalities, over whole numbers, and what its pivots come to.
//!
//! `specs/` has the definitions: the opening tableau, a pivot, the courses of lawful pivots, and how they
//! end. `proofs/` shows what an end tells of the system, and that every course ends.
#![tactic(auto)]

ghost use Rattle.simplex_spec.specs.Laws.{EndsAreLeast, RisesRefute, CoursesEnd, OneRowExits, EndsAgree, EndsOrRises, OneCourse};
ghost use Rattle.simplex_spec.specs.Example.{Examples, Searches};

/// Where no gain is left, the tableau has a solution and a dual solution of the same sum.
pub fn ends_are_least()
    ensures { EndsAreLeast }
{}

/// Where no row bounds a column with gain, the tableau has a vector that refutes the system.
pub fn rises_refute()
    ensures { RisesRefute }
{}

/// No basis comes twice, so every course of lawful pivots ends.
pub fn courses_end()
    ensures { CoursesEnd }
{}

/// The row that exits the basis is one.
pub fn one_row_exits()
    ensures { OneRowExits }
{}

/// By whichever rules columns enter, the least weighted sum is the same.
pub fn ends_agree()
    ensures { EndsAgree }
{}

/// A system that has a solution by one rule has one by every other.
pub fn ends_or_rises()
    ensures { EndsOrRises }
{}

/// By a rule that is a function there is one course.
pub fn one_course()
    ensures { OneCourse }
{}

/// Small systems come out as they should.
pub fn examples()
    ensures tableaux { Examples }
    ensures searches { Searches }
{}
