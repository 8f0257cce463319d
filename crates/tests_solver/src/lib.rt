//! Tests of the solver and of the crates below it, each of which is so proved once.
#![tactic(auto)]

#[cfg(test)]
mod checks;
#[cfg(test)]
mod choosers;
#[cfg(test)]
mod fractions;
#[cfg(test)]
mod numbers;
#[cfg(test)]
mod plain;
#[cfg(test)]
mod rows;
#[cfg(test)]
mod systems;
#[cfg(test)]
mod terms;
#[cfg(test)]
mod text;
