//! What `explain why` tells of a program: why functions have no bounds, each at its place in the source.
#![tactic(auto)]

mod bounds;
mod call;
mod change;
mod chosen;
mod groups;
mod notes;
mod shown;

pub use call::{Told, tell_why};
