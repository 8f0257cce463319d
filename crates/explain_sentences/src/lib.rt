//! Reasons why functions have no bound, in words: a sentence for each place that is told.
#![tactic(auto)]

mod behind;
mod call;
mod change;
mod head;
mod reason;
mod sentence;
mod site;
mod twice;

pub use behind::closing;
pub use head::{first_head, next_head};
pub use reason::sentences;
pub use sentence::Sentence;
