//! Expressions from tokens, by the rules of the grammar.
#![tactic(auto)]

mod exprs;

pub use exprs::parts::parse_part;
