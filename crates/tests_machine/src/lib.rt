//! Tests of the machine that runs the code of programs. They stand in a crate of their own, so that the crates
//! that they test are proved once.
#![tactic(auto)]

#[cfg(test)]
mod numbers;
#[cfg(test)]
mod programs;
#[cfg(test)]
mod runs;
