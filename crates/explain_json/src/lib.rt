//! Polynomials as JSON.
#![tactic(auto)]

mod coefficient;
pub mod laws;
mod line;
mod terms;
mod tuple;

pub use coefficient::push_coefficient;
pub use line::push_line;
pub use terms::{write_poly, write_term, write_text};
pub use tuple::push_tuple;
