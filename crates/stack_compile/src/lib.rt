//! The code of a program for the stack machine; in `specs/` what the machine does, and the laws that tie
//! it to evaluation.
#![tactic(auto)]

mod code;
mod emit;
mod instr;
pub mod laws;
mod scope;
mod text;

pub use code::{Body, Code, compile};
pub use instr::Instr;
pub use text::print;
