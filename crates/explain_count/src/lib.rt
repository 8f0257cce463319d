//! A program whose ticks count the rounds of a group of functions.
#![tactic(auto)]

mod copied;
mod count;
pub mod laws;
mod tickless;

pub use count::count_program;
