//! The grammar of programs as a table of rules over tokens, and what is read by it but for expressions.
#![tactic(auto)]

pub mod form;
pub mod front;
pub mod make;
pub mod pieces;
pub mod stop;
pub mod take;
pub mod token;
pub mod types;
