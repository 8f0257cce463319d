//! Tests of indices, products, maps and places of tuples against tables that were worked out apart, and worked
//! examples of texts. There is nothing else here: so the crates below are proved once.
#![tactic(auto)]

#[cfg(test)]
mod counting;
pub mod laws;
#[cfg(test)]
mod listing;
#[cfg(test)]
mod maps;
#[cfg(test)]
mod points;
#[cfg(test)]
mod products;
#[cfg(test)]
mod ranks;
#[cfg(test)]
mod texts;
