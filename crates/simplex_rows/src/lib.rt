//! Rows of fractions, kept as whole numbers over one denominator where these are short.
#![tactic(auto)]

mod dividing;
mod factors;
mod fault;
mod few;
mod few_dividing;
mod few_merging;
mod many;
mod narrow;
mod numbers;
mod places;
mod rest;
mod row;
mod scratch;
mod short;
mod wide;

pub use fault::RowFault;
pub use row::FracRow;
pub use scratch::RowScratch;
