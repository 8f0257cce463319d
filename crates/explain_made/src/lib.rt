//! Made arguments of functions.
#![tactic(auto)]

mod made;
mod maker;
mod values;

pub use made::{made_arguments, made_texts};
pub use maker::Shape;
