//! Values that are built again so that functions get bounds: all that may be, and then as few as that takes.
#![tactic(auto)]

mod changed;
mod mending;
mod sites;

pub use mending::{Rebuilt, rebuild};
pub use sites::reached_sites;
