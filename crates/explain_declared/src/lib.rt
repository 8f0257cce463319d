//! Declared bounds of a file, or its first fault in words.
#![tactic(auto)]

mod file;
mod message;
mod place;

pub use file::declared_in;
