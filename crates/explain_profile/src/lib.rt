//! How often each line of a program is run at most by a call of a function, and what one run of the line costs.
#![tactic(auto)]

mod cells;
mod columns;
mod lines;
mod profile;
mod reach;
mod rows;
mod runs;
mod table;
mod ticks;

pub use profile::push_profile;
pub use runs::{Case, Runs, program_in, runs_of_region};
