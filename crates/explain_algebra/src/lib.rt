//! The bound of a flat function in algebra.
#![tactic(auto)]

mod algebra;
pub mod laws;
mod legend;
mod names;

pub use algebra::push_algebra;
pub use legend::push_legend;
pub use names::{are_shallow, size_names};
