//! Types of programs: each expression's is found, or checked.
#![tactic(auto)]

mod fault;
mod functions;
pub mod laws;
mod program;
mod scope;
mod text;
mod types;
mod walk;

pub use fault::{Shape, TypeFault};
pub use program::{Typed, check};
pub use text::{push_shape, push_type};
