//! Tests of normal forms and of what they are made from, above the crates that they test.
#![tactic(auto)]

#[cfg(test)]
mod forms;
#[cfg(test)]
mod groups;
#[cfg(test)]
mod more_programs;
#[cfg(test)]
mod programs;
#[cfg(test)]
mod shown;
#[cfg(test)]
mod texts;
