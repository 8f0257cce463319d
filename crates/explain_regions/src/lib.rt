//! The lines and the regions of functions, and a source with a counter in a region.
#![tactic(auto)]

mod counter;
pub mod laws;
mod line;
mod site;

pub use counter::counter_edits;
pub use line::{Line, lines};
