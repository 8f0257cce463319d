//! Bodies of functions in which each operand is a variable: step one of the normal form.
#![tactic(auto)]

mod body;
mod found;
mod functions;
mod maker;
mod naming;
mod operand;
mod scope;
mod types;

pub use body::name_operands;
pub use maker::Maker;
