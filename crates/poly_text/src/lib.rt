//! Polynomials as text.
#![tactic(auto)]

pub mod laws;
mod text;

pub use text::print;
