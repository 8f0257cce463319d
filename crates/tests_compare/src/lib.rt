//! Tests of comparisons and of bounds as powers. There is nothing else here: so the crate below is
//! proved once.
#![tactic(auto)]

#[cfg(test)]
mod exponents;
#[cfg(test)]
mod forms;
#[cfg(test)]
mod limits;
#[cfg(test)]
mod lines;
#[cfg(test)]
mod polys;
#[cfg(test)]
mod relations;
