//! The sizes that words such as `l=100,l.each=20` ask for.
#![tactic(auto)]

mod fault;
mod given;
pub mod laws;
mod named;
mod numeral;
mod part;
mod sizes;
mod word;

pub use fault::{SizeFault, WordFault};
pub use given::{Given, number_for, read};
pub use named::size_names;
pub use sizes::{sizes_at, sizes_within};
