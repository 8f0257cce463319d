//! Changes that keep the values of functions, on made runs.
#![tactic(auto)]

mod values;

pub use values::keep_values;
