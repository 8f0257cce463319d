//! The source language: types, trees and values, and what a program means.
#![tactic(auto)]

mod function_names;
pub mod laws;
mod name;
mod program;
mod tree;
mod ty;
mod value;

pub use function_names::FunctionNames;
pub use name::Name;
pub use program::{Fun, FunId, Param, Program};
pub use tree::{ArithOp, Binder, CompareOp, Expr, Form, Pos};
pub use ty::Ty;
pub use value::Value;
