//! Where a byte of a text stands: its line and its column.
#![tactic(auto)]

mod below;
pub mod laws;
mod lines;
mod place;

pub use below::caret;
pub use lines::line_at;
pub use place::Place;
