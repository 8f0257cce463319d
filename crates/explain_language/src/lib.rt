//! Programs as a language that an editor knows: the fault of a source, or the bounds of its functions.
#![tactic(auto)]

mod programs;
mod source;

pub use programs::Programs;
