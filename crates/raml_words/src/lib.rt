//! The words of a call, and what they ask for. They are sorted here, and `clap` reads what is sorted.
#![tactic(auto)]

mod clapped;
mod commands;
mod degrees;
pub mod laws;
mod limits;
mod made;
mod number;
mod options;
mod ordered;
mod request;
mod run;
mod sorting;
mod spend;

pub use request::{Request, Rule, WordsFault, read_words};
