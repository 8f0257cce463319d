//! What an editor shows of an analysed program: the bounds of a function above it and on its name, and the sizes of a parameter.
#![tactic(auto)]

mod analysed;
mod brief;
mod called;
mod fenced;
mod function;
mod header;
pub mod laws;
mod lens;
mod parameter;
mod program;

pub use brief::brief_bounds;
pub use program::program_insight;
