//! Bounds of functions on nested data, as sums over elements of products of sizes.
#![tactic(auto)]

pub mod laws;
mod names;
mod piece;
mod reading;
mod sums;
mod text;

pub use names::value_names;
pub use sums::nested_sum;
