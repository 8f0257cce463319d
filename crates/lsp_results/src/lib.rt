//! What a language server tells of a text, as JSON: results of requests, and diagnostics.
#![tactic(auto)]

mod action;
mod capability;
mod diagnostic;
mod hover;
pub mod laws;
mod mark;
mod names;
mod outline;
mod place;
mod rename;
mod result;

pub use capability::initialized_value;
pub use diagnostic::{diagnostics_value, emptied_value, published_value};
pub use rename::renamed_value;
pub use result::result_value;
