//! Tests of targets, of schedules and of annotations, and worked examples of their definitions. There is
//! nothing else here: so the crates below are proved once.
#![tactic(auto)]

#[cfg(test)]
mod annotations;
pub mod laws;
#[cfg(test)]
mod schedules;
#[cfg(test)]
mod targets;
