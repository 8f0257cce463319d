//! What a language tells of a text, as an editor shows it: faults, words on a place, bounds above a line, changes.
#![tactic(auto)]

mod insight;
mod language;
mod names;
mod span;

pub use insight::{Action, Diagnostic, Edit, Hint, Hover, Insight, Lens, Related, Severity};
pub use language::Language;
pub use names::{Named, Refusal, Renaming, Symbol};
pub use span::Span;
