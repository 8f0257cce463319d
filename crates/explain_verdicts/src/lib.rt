//! The verdicts of declared bounds in words: whether each is kept, with what is declared and what was found in algebra.
#![tactic(auto)]

mod declared;
mod exceeding;
mod fraction;
mod judged;
pub mod laws;
mod line;
mod object;
mod over;

pub use judged::{Judged, Verdict};
pub use line::verdict_line;
pub use object::write_verdict;
