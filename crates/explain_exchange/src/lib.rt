//! Two parameters of a function that are exchanged so that functions get bounds.
#![tactic(auto)]

mod candidates;
mod compare;
pub mod laws;
mod mending;
mod parts;
mod text;
mod two_params;

pub use compare::is_exchanged;
pub use mending::{Exchanged, exchange};
pub use text::exchanged_text;
pub use two_params::TwoParams;
