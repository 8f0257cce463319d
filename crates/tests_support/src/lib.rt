//! What several crates of tests share: words for types, the text of indices and of linear systems.
#![tactic(auto)]

pub mod index_text;
pub mod systems;
pub mod types;
