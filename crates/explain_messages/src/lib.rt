//! What is wrong with a source, in words, with a hint where the mistake is typical.
#![tactic(auto)]

mod around;
mod bits;
mod cases;
mod forms;
mod hint;
mod message;
mod need;
mod needs;
mod shown;
mod signs;
mod syntax;
mod types;
mod word;

pub use hint::{BitHint, CaseHint, FormHint, Hint, PairHint, SignHint, TypeHint, WordHint};
pub use message::Message;
pub use syntax::syntax_message;
pub use types::type_message;
