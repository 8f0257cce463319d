//! Bodies of functions as source text, in which the calls of another function may be written out.
#![tactic(auto)]

mod body;
mod callee;
mod infix;
mod known;
mod names;
mod place;
mod settled;
mod shape;
mod uses;
mod writer;
mod writing;

pub use body::{body_text, unfolded, written_out};
