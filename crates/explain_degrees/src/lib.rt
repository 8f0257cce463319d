//! For each function and meter of a program the bound of the least degree at which there is one.
#![tactic(auto)]

mod analysis;
mod finding;
mod least;
mod noted;

pub use analysis::{analyse, analyse_within};
pub use finding::{Finding, Findings};
pub use least::{
    LeastBounds, LeastWithin, RefusedDegree, least_bounds, least_bounds_within, refused,
};
