//! Normal forms of typed programs: each operand is a variable, and each variable is used once.
#![tactic(auto)]

mod free;
mod functions;
mod marked;
mod norm_program;
mod operands;
mod sharing;
mod slots;
mod taken;
mod variables;
mod wrapped;

pub use norm_program::{NormFuns, NormProgram, normalise};
