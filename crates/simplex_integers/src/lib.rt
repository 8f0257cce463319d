//! Fractions in whole numbers over the least denominator that serves for all of them. In `specs/` also what is
//! read of a system where its pivots end, and when that passes the check.
#![tactic(auto)]

mod denominator;
mod fault;
pub mod laws;
mod numbers;

pub use denominator::least_denominator;
pub use fault::WholeFault;
pub use numbers::wholes;
