//! Texts that are tried: what analyses find of the program that one spells.
#![tactic(auto)]

mod edited;
mod trial;

pub use edited::{EditedSource, try_edits, typed_edits};
pub use trial::{Trial, found_of, found_within, trial_of, typed_text};
