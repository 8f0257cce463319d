//! The system of a task: rows over the unknown numbers of its signatures and hints, and the signatures
//! and hints that a solution stands for.
#![tactic(auto)]

mod collector;
mod counts;
mod fault;
mod finish;
mod form;
mod give;
mod heard;
mod row;
mod sum;
mod system;
mod task;
mod told;

pub use fault::{GenFault, What};
pub use system::{plans, rows, rows_by};
pub use told::{hints_of, told_by};
