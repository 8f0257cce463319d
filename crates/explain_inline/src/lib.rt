//! Calls that are written out so that functions get bounds: in the text of the caller, with matches on their results settled at the
//! ends where these are built, or with matches on their arguments settled where it is known of what these are built.
#![tactic(auto)]

mod headers;
mod how;
mod mending;
mod numbers;
mod stretch;
mod text;

pub use how::How;
pub use mending::{Inlined, inline};
pub use text::{inlined_text, unfolded_text};
