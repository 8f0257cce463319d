//! Documents of the Language Server Protocol: a text with its version, and the changes of it.
#![tactic(auto)]

mod change;
mod document;
pub mod laws;
mod text;

pub use change::{Change, ChangeFault, Range};
pub use document::Document;
