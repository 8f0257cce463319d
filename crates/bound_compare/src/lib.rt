//! Bounds compared, and bounds as powers of element counts.
#![tactic(auto)]

mod coefficients;
mod compared;
mod exponents;
mod fault;
mod form;
pub mod laws;
mod lines;
mod parts;
mod relation;
mod text;

pub use coefficients::compare;
pub use compared::Compared;
pub use exponents::Exponents;
pub use fault::PowerFault;
pub use form::{PowerForm, is_flat, powers};
pub use lines::{leaves_line, push_compared_line, push_not_flat_line, push_powers_line};
pub use relation::Relation;
pub use text::push_powers;
