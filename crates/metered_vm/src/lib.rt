//! The stack machine that runs the code of a program on words and a heap, and counts what it costs.
#![tactic(auto)]

mod acts;
mod calls;
mod end;
mod machine;
mod operands;
mod steps;
mod vm;

pub use end::End;
pub use vm::Vm;
