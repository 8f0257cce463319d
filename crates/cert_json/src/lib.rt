//! Certificates as JSON: the text of one, and the certificate that a text has. In `specs/` the form of
//! that JSON, and which fault is a text's first.
#![tactic(auto)]

mod block;
mod head;
mod likeness;
mod pieces;
mod reading;
mod whole;
mod writing;

pub use whole::{JsonFault, Place, read};
pub use writing::write;
