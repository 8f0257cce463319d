//! Normal forms of programs: each operand is a variable, and each variable is used once. In `specs/`
//! what the normal form of a program is and how it runs, and the laws that it keeps.
#![tactic(auto)]

mod form;
pub mod laws;

pub use form::{Const, NormExpr, NormForm, NormFun, NormOp};
