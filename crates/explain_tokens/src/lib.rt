//! The tokens of a source, and where they stand in it.
#![tactic(auto)]

mod source;
mod stretch;

pub use source::source_tokens;
pub use stretch::{Stretch, ending_at, starting, word};
