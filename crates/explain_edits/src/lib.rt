//! Texts in which some bytes are replaced.
#![tactic(auto)]

mod edit;

pub use edit::{Edit, edited};
