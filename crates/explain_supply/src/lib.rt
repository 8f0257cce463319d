//! Programs in which each round of a group of functions takes an entry of a list, so that the list pays for the rounds.
#![tactic(auto)]

mod group;
mod insertion;
mod insertions;
mod names;
mod place;
mod source;
mod supplying;

pub use supplying::{Supplied, supply};
