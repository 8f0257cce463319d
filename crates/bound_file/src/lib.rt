//! Declared bounds of a program's functions, from the bytes of a file.
#![tactic(auto)]

mod counted;
mod cut;
mod declaration;
mod fault;
mod file;
pub mod laws;
mod line;
mod matching;
mod meaning;
mod name;
mod number;
mod numbers;
mod places;
mod sum;
mod term;
mod tuple;
mod written;

pub use declaration::{DeclLine, Declared};
pub use fault::{DeclError, DeclFault, LineFault, fault_line};
pub use file::read;
