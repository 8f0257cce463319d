//! The lines of `explain bounds`: for each function and meter of a program its bound in algebra.
#![tactic(auto)]

mod asked;
mod behind;
mod bound;
mod fitted;
pub mod laws;
mod line;
mod object;
mod tail;

pub use asked::Asked;
pub use bound::{parameter_names, parameter_types, push_legend};
pub use fitted::check_sizes;
pub use line::push_function;
pub use object::push_objects;
