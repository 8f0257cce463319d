//! Lines that are wrapped at a width.
#![tactic(auto)]

mod glue;
mod lines;
mod wrap;

pub use wrap::wrapped;
