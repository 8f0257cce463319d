//! Definitions and laws alone: the annotation rules as numbered inequalities. In `specs/` the plan of a normal
//! form, in which only positions are left, and the walk over a plan, for any kind of number; what numbers for the
//! unknowns of a task stand for, sums of unknowns whose numbers are capped, and what a plan makes of numbers.
#![tactic(auto)]

pub mod laws;
