//! How often the line of a byte of a source is run at most by a call of its function, as an editor shows it.
#![tactic(auto)]

mod count;
mod hover;
pub mod laws;
mod line;
mod part;

pub use hover::line_hover;
