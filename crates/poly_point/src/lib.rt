//! Polynomials at the values that words stand for.
#![tactic(auto)]

mod base;
mod elements;
mod fault;
mod point;

pub use fault::PointFault;
pub use point::{Point, at};
