//! Runs of functions on data, measured.
#![tactic(auto)]

mod agreement;
mod measuring;
mod outcome;

pub use agreement::agree;
pub use measuring::{measure, parameter_types};
pub use outcome::{Limits, Measured, Outcome};
