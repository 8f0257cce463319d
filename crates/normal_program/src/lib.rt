//! The normal form of a typed program, with the groups of functions that call each other.
#![tactic(auto)]

mod program;

pub use program::normal_form;
