//! For each form of a program's normal form the expression of the source for which it stands.
#![tactic(auto)]

mod body;
mod cursor;
pub mod laws;
mod parts;
mod spot;
mod turn;

pub use body::{origin, place_of};
