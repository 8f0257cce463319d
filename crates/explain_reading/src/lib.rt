//! A bound in algebra, and what the names in it mean.
#![tactic(auto)]

pub mod laws;
mod reading;
mod used;

pub use reading::{Reading, read_bound};
