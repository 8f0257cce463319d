//! Declared bounds: whether some annotation of a function lies under a bound that is declared for it.
#![tactic(auto)]

mod decider;
mod deciding;
mod decision;
mod extended;
mod fault;
mod front;
mod keeping;
pub mod laws;
mod own;
mod rows;
mod site;
mod solving;
mod span;

pub use decider::{Decider, decide};
pub use decision::Decision;
pub use fault::{DecideFault, DeclAt};
