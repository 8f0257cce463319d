//! What a call of `explain plot` draws and tells: what runs of a function cost, and the bound above them.
#![tactic(auto)]

mod along;
mod call;
mod drawing;
mod files;
mod function;
pub mod laws;
mod program;
mod sizes;
mod table;

pub use call::{Told, tell_plot};
