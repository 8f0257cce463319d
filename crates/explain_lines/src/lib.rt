//! Lines of functions and meters: which of them have no bound, and which get one by a change.
#![tactic(auto)]

mod bounds;
mod lacking;
pub mod laws;
mod mended;

pub use bounds::{Line, has_bounds, mends_group};
pub use lacking::{first_lacking, is_bounded, is_unbounded, lacks, lacks_at};
pub use mended::mended_lines;
