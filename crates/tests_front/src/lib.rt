//! Tests of tokens, parsing, typing and names of functions, above the crates that they test.
#![tactic(auto)]

pub mod laws;
#[cfg(test)]
mod lexing;
#[cfg(test)]
mod names;
#[cfg(test)]
mod parsing;
#[cfg(test)]
mod typing;
