//! Which functions of a program call which, and their groups, callees first.
#![tactic(auto)]

mod calls;
mod function_set;
mod groups;
mod order;
mod reach;

pub use groups::{Groups, group_calls};
