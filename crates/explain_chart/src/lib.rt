//! Charts of measured costs under their bounds, as texts in SVG.
#![tactic(auto)]

mod axis;
mod chart;
mod escaped;
mod frame;
mod grid;
mod line;
mod mark;
mod number;
mod points;
mod scale;
mod style;

pub use chart::{Chart, draw};
pub use mark::Mark;
