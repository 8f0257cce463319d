//! Runs of a function on made and on given arguments, each with the bound at its arguments.
#![tactic(auto)]

mod bound;
mod elements;
mod given;
mod made;
mod marks;
mod reading;
mod run;

pub use marks::{Cut, Given, Made, Marks, Runs, marks_of};
