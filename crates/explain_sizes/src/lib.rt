//! The value of a bound at sizes.
#![tactic(auto)]

mod binomial;
mod counted;
pub mod laws;
mod open_size;
mod share;
mod share_type;
mod size;
mod value;
mod within;

pub use open_size::{OpenSize, fill_all};
pub use size::Size;
pub use value::value_at;
pub use within::{Within, greatest_within};
