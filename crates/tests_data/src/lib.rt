//! Tests of words, cells and the texts of values. They stand in a crate of their own, so that the crate
//! that they test is proved once.
#![tactic(auto)]

#[cfg(test)]
mod faults;
#[cfg(test)]
mod heaps;
pub mod laws;
#[cfg(test)]
mod limits;
#[cfg(test)]
mod shown;
#[cfg(test)]
mod types;
#[cfg(test)]
mod values;
