//! Annotations, and the certificates that are made of them. In `specs/` the rules by which annotations
//! fit a program, and what a certificate claims.
#![tactic(auto)]

mod annot;
mod block;
pub mod laws;

pub use annot::{Annot, rise};
pub use block::{Block, BlockBody, Certificate, Hint, Sig};
