//! Tests of stores, sinks and the words of a call. They stand in a crate of their own, so that the crates
//! that they test are proved once.
#![tactic(auto)]

#[cfg(test)]
mod further;
#[cfg(test)]
mod streams;
#[cfg(test)]
mod tables;
#[cfg(test)]
mod words;
