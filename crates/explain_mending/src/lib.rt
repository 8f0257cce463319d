//! Changes that are tried so that functions get bounds: first all, and then without those that this does not take.
#![tactic(auto)]

mod attempt;
mod fewer;
mod mended;
mod original;
mod reach;

pub use attempt::Attempt;
pub use mended::{Mended, mend};
pub use original::Original;
pub use reach::{callees, reached};
