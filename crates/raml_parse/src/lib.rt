//! Programs from the bytes of their source.
#![tactic(auto)]

mod fault;
pub mod laws;
mod program;
mod source;
mod whole;

pub use fault::ParseFault;
pub use source::parse;
