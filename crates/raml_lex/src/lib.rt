//! Tokens of a source text, by longest match.
#![tactic(auto)]

mod lex;
mod piece;
mod token;

pub use lex::tokens;
pub use piece::number_value;
pub use token::{LexFault, Token, TokenKind};
