//! Tests of tables of prices. They stand in a crate of their own, so that the crate that they test is proved
//! once.
#![tactic(auto)]

#[cfg(test)]
mod applied;
#[cfg(test)]
mod shown;
#[cfg(test)]
mod tables;
