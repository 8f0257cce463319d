//! The report of declared bounds: which of them a program keeps, line by line.
#![tactic(auto)]

mod fault;
mod verdicts;

pub use fault::VerdictsFault;
pub use verdicts::{line_fault, verdict_lines};
